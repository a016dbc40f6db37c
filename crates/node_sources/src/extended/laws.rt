//! What the sources of an extended text tell.

ghost use Rattle.node_sources.specs.ExtendedLaws.{AuthorSourcesTellNodes};

use node_elements::elements_tell_nodes;

/// Of the program of a reduced chart there are as many places as nodes. Each node comes from an element of that chart,
/// an assignment of its text from the effect that makes it, and stands where the author's element does from which that
/// comes. This function does nothing; its contract is the law.
pub fn author_sources_tell_nodes()
    ensures { AuthorSourcesTellNodes }
{
    elements_tell_nodes();
}
