//! The names of a directory's entries, by a scan of the nodes.
ghost use Rattle.std.specs.Prelude.{◌≡◌, IfOk};
ghost use Rattle.tree_model.specs.State.{names_in, sorted_names};

use path_text::{Name, Names, NoMemory};
use std::alloc::Global;
use tree_model::{Inode, Node};

/// The names of a directory's entries, as the nodes are numbered. NoMemory where their room was refused.
pub(crate) fn names_in(alloc: Global, nodes: &[Inode], dir: Node) -> Result<Vec<Name>, NoMemory>
    ensures { IfOk result (λ names. names.items ≡ names_in nodes.now dir) }
{
    let mut names = Vec::new(alloc);
    for inode in nodes {
        match &inode.place {
            Some(place) if place.parent == dir => names.push(place.name.copy(alloc)?)?,
            _ => {}
        }
    }
    Ok(names)
}

/// The names by their bytes. NoMemory where room was refused.
#[tactic(auto, using(crate::proofs::Sorting::sorted_names_from_sort))]
pub(crate) fn sorted(alloc: Global, names: Vec<Name>) -> Result<Names, NoMemory>
    ensures { IfOk result (λ names_by_bytes. names_by_bytes ≡ sorted_names names.items) }
{
    let mut names = names;
    names.sort()?;
    Names::from_slice(alloc, names.as_slice())
}
