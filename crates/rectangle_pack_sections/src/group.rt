//! Groups of boxes.

/// A group of boxes that go into one bin together: a box of its own, or the boxes of a named group.
#[derive(Debug, Clone, PartialEq, Eq, PartialOrd, Ord, Drop)]
pub enum Group<GroupId, Id> {
    /// The box of this id, alone.
    Ungrouped(Id),
    /// The boxes that were pushed into the group of this name.
    Grouped(GroupId),
}
