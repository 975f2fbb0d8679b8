// Where a value stands.
/// The two places of a slot.
pub enum Part {
    /// What is shown while the slot is free.
    Main,
    /// What is shown while the slot is held off.
    Interim,
}
