use repo_object::Checked;

/// The results of a phase: for each job its packet, if one was received, and the number of attempts that were made.
#[derive(Drop)]
pub struct PhaseOutcome<'p> {
    pub parts: Vec<Option<Checked<'p>>>,
    pub attempts: Vec<u32>,
}
