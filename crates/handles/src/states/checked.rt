//! What a `Standing` tells of its object.
ghost use Rattle.std.specs.Prelude.{◌≡◌};
ghost use Rattle.path_text.specs.Names.{AreNames};

use crate::owner::Owner;
use crate::states::Standing;
use path_text::Names;
use tree_model::{HandleNo, Kind, Node};

impl Standing {
    /// The names from the root down to the object, as it stood.
    pub fn names(&self) -> &Names
        ensures same { result.now ≡ self.now.names }
        ensures valid { AreNames result.now }
    {
        // `Names` holds names alone, and says so where it is asked for its length.
        let _count = self.names.len();
        &self.names
    }

    /// Whose handle it is.
    pub fn owner(&self) -> Owner
        ensures { result ≡ self.now.owner }
    {
        self.owner
    }

    /// The handle's number.
    pub fn handle(&self) -> HandleNo
        ensures { result ≡ self.now.handle }
    {
        self.handle
    }

    /// The node that the handle is open on.
    pub fn node(&self) -> Node
        ensures { result ≡ self.now.node }
    {
        self.node
    }

    /// What the node is.
    pub fn kind(&self) -> Kind
        ensures { result ≡ self.now.kind }
    {
        self.kind
    }
}
