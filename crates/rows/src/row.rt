// One row: what stands at a path.
use paths::Path;

#[derive(Clone, Copy, PartialEq, Eq)]
pub struct Row<V> {
    pub path: Path,
    pub value: V,
}
