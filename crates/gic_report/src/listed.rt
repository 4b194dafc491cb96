//! Which intervals of a view are shown one after another.

/// Those of its nodes, or those of its elements.
#[derive(Clone, Copy)]
pub(crate) enum Listed {
    Nodes,
    Elements,
}
