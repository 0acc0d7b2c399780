use repo_member::Group;
use repo_object::Object;

/// A group, and in order of its members their labels and the objects that each is to publish.
#[derive(Drop)]
pub struct Members {
    pub group: Group,
    pub labels: Vec<String>,
    pub lists: Vec<Vec<Object>>,
}
