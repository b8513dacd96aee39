//! What is drawn of a nemesis: faults as bands, and records as lines.

/// How long a fault was active. Indexes count the records of the history from 0.
#[derive(Debug, Drop)]
pub struct Band {
    /// The index of the record that answers the step which made the fault active.
    pub from: usize,
    /// The index of the record that answers the step which ended it, if one did.
    pub to: Option<usize>,
    /// What names the fault for a person, as `1: cut n1 n2`: its id and itself in words, in UTF-8.
    pub label: Vec<u8>,
}

/// A record of the nemesis, as a line of a picture.
#[derive(Debug, Drop)]
pub struct Line {
    /// The index of the record in the history, from 0.
    pub index: usize,
    /// What it says, for a person, as `begin 1: cut n1 n2`: in UTF-8.
    pub label: Vec<u8>,
}
