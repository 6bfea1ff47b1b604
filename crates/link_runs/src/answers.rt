// Answers as they are printed.
use refusals::Refusal;
use std::fmt;

// What joining a channel answers: the number, the point and the count.
#[derive(Clone, Copy)]
pub struct Told(pub Result<u32, Refusal>);

impl fmt::Display for Told {
    fn fmt<W: fmt::Write>(&self, f: &mut fmt::Formatter<W>) -> fmt::Result {
        match self.0 {
            Ok(count) => write!(f, "0, point 0, count {count}"),
            Err(refusal) => {
                let number = refusal.number();
                let (point, count) = refusal.values();
                write!(f, "{number}, point {point}, count {count}")
            }
        }
    }
}
