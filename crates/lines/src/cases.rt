// Worked cases: plans whose answers are compared.

// Three spaced channels that the air just carries together under packets of up to 4 slots.
pub const THREE: &[u8] = b"1\nP 4\n3\nS 1 10 2 5\nS 2 8 4 9\nS 3 12 3 18\n0\n";
// The third a slot sooner: the point 17 fails.
pub const SOONER: &[u8] = b"1\nP 4\n3\nS 1 10 2 5\nS 2 8 4 9\nS 3 12 3 17\n0\n";
// One packet of a slot in every slot, due at once: a packet of 2 slots may hold it up.
pub const AT_ONCE: &[u8] = b"1\nP 2\n1\nS 1 1 1 1\n0\n";
// A slot later it is granted, and then the air is full.
pub const FULL: &[u8] = b"1\nP 2\n2\nS 1 1 1 2\nS 2 5040 1 1\n0\n";
// Mat 0, a period that does not divide the frame, an allowance above and at its limit, a mat asked for twice.
pub const LIMITS: &[u8] =
    b"1\nP 4\n5\nS 0 10 2 5\nS 1 11 2 5\nS 1 10 2 40321\nS 1 10 2 40320\nB 1 10 2 3 9\n0\n";
// A malformed plan for a link that opens shut.
pub const SHUT_MALFORMED: &[u8] = b"1\nP 0\n0\n1\n";
