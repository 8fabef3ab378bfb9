/// The ends of a statement's control. The net `pass` is 1 in a clock in which a token that starts goes through at once, and
/// it doesn't read the start. The net `finish` is 1 where a token ends that started in an earlier clock.
#[derive(Clone, Copy, Debug)]
pub struct Ends {
    pub pass: u32,
    pub finish: u32,
}
