//! The edges between the states of an element, and what a move along one of them needs.
ghost use Rattle.std.specs.Prelude.{◌≡◌, is_some};
ghost use Rattle.schema_version.specs.Edges.{edge as edge_of, needed_work as needed_of, wanted_work as wanted_by};

use crate::element::{ElementDef, ElementState, Kind, Way, Work};

/// The way of an element after it goes from one state to another; `None` if no edge joins them that
/// is one of its way or leaves public.
///
/// An index and a required column go absent, delete-only, write-only, public, one state at a time,
/// and the same way back; an optional column goes absent, delete-only, public, and the same way
/// back. What leaves public is dropped from then on.
///
/// - `kind`: what the element is.
/// - `way`: where it is going; that of a public one does not count.
/// - `from`: the state that it has.
/// - `to`: the state to go to.
pub fn edge(kind: &Kind, way: Way, from: ElementState, to: ElementState) -> Option<Way>
    ensures { result ≡ edge_of kind.now way from to }
{
    use ElementState::{Absent, DeleteOnly, Public, WriteOnly};
    match (kind.is_filled(), way, from, to) {
        (true, Way::Adding, Absent, DeleteOnly)
        | (true, Way::Adding, DeleteOnly, WriteOnly)
        | (true, Way::Adding, WriteOnly, Public)
        | (false, Way::Adding, Absent, DeleteOnly)
        | (false, Way::Adding, DeleteOnly, Public) => Some(Way::Adding),
        (true, _, Public, WriteOnly)
        | (true, Way::Dropping, WriteOnly, DeleteOnly)
        | (true, Way::Dropping, DeleteOnly, Absent)
        | (false, _, Public, DeleteOnly)
        | (false, Way::Dropping, DeleteOnly, Absent) => Some(Way::Dropping),
        _ => None,
    }
}

/// What a move needs to be finished: an index's or a required column's to public its fill, every
/// one to absent the clear; `None` if it needs nothing.
///
/// - `kind`: what the element is.
/// - `to`: the state to go to.
pub fn needed_work(kind: &Kind, to: ElementState) -> Option<Work>
    ensures { result ≡ needed_of kind.now to }
{
    match (kind.is_filled(), to) {
        (true, ElementState::Public) => Some(Work::Fill),
        (_, ElementState::Absent) => Some(Work::Clear),
        _ => None,
    }
}

impl ElementDef {
    // Whether the element may go to this state.
    fn leads(&self, to: ElementState) -> bool
        ensures { result ≡ is_some (edge_of self.now.kind self.now.way self.now.state to) }
    {
        edge(&self.kind, self.way, self.state, to).is_some()
    }

    /// What the element wants, which is what the next move on its way needs: an index or a required
    /// column that is write-only and being added a fill, what is delete-only and being dropped a
    /// clear; `None` if that move needs nothing.
    pub fn wanted_work(&self) -> Option<Work>
        ensures { result ≡ wanted_by self.now }
    {
        if self.leads(ElementState::Public) {
            needed_work(&self.kind, ElementState::Public)
        } else if self.leads(ElementState::Absent) {
            needed_work(&self.kind, ElementState::Absent)
        } else {
            None
        }
    }
}
