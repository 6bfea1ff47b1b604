// A plan run on a link, with the lines that it prints.
ghost use Rattle.std.specs.Prelude.{◌≡◌, [], ◌∷◌, length, IfOk};
ghost use Rattle.plan.specs.Format.{script};
ghost use Rattle.link.specs.Model.{model};
ghost use Rattle.whole_answers.specs.Runs.{Ran, Opening};

use lines::Line;
use link::state::{Link, Packet};
use plan::{Kind, Plan};
use std::alloc::{AllocError, Global};
use traffic::mixture::MixtureState;
use traffic::{Row, Traffic};

// A row of a plan's link.
pub(crate) type LinkRow = Row<Kind, MixtureState<Option<u32>, u64>>;

// A link on which a plan is run, and the lines so far.
#[derive(Drop)]
pub(crate) struct Run<'a> {
    pub(crate) link: Link<'a, Kind>,
    pub(crate) lines: Vec<Line>,
}

impl<'a> Run<'a> {
    // Opens the link over this memory; the first line says how.
    pub(crate) fn open(
        heap: Global,
        longest: u32,
        rows: &'a mut [LinkRow],
        places: &'a mut [Packet],
    ) -> Result<Run<'a>, AllocError>
        ensures { IfOk result (λ run. Opening longest rows.old (length places.old) (model run.link) run.lines.items) }
    {
        let link = Link::open(0, longest, rows, places);
        let shut = link.shut();
        let lines = vec![in heap; Line::Opened { shut }]?;
        Ok(Run { link, lines })
    }
}

// What was in a row of the memory that the link is lent means nothing.
pub(crate) fn blank() -> LinkRow {
    let kind = Kind::spaced(1, 1, 1);
    Row {
        kind,
        state: kind.fresh(),
    }
}

// The lines of a plan: its channels joined and its calls made on a link of 32 rows and 256 places.
pub(crate) fn run_plan(heap: Global, plan: &Plan) -> Result<Vec<Line>, AllocError>
    ensures { IfOk result (λ ls. Ran (script plan.now) ls.items) }
{
    let mut rows = [blank(); 32];
    let mut places = [Packet::default(); 256];
    let mut run = Run::open(heap, plan.longest, &mut rows, &mut places)?;
    if run.link.shut() {
        return Ok(run.lines);
    }
    run.join_all(&plan.channels)?;
    run.call_all(&plan.calls)?;
    Ok(run.lines)
}
