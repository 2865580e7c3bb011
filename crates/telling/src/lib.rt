// What the C interface tells its caller: of each answer but the panel's, which is one float, a status and four numbers.

#![tactic(auto)]

pub mod answers;

// A call's status and its four numbers. `place` is the page or, for refusal 5, the station; for refusal 19 it is the
// index of a record. Of the order of two maps `count` says which is less and, at a refusal, `reached` which is refused.
// Of a replay `count` and `reached` are the lower and the upper 32 bits of its reads. Numbers, 0 where an answer has
// none, and no enum: so C is told them.
#[derive(Clone, Copy, Debug, Default, PartialEq, Eq)]
pub struct Numbers {
    pub status: u8,
    pub count: usize,
    pub reached: usize,
    pub place: u32,
    pub offset: usize,
}
