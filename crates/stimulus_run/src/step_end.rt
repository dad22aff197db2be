/// How a call for the next step ends: the step at the tick ended, it oscillated there, or the run was
/// over before.
#[derive(Clone, Copy, Debug, PartialEq, Eq)]
pub enum StepEnd {
    Ended(u64),
    Oscillates(u64),
    Over,
}
