//! What a `Reached` tells of its object.
ghost use Rattle.std.specs.Prelude.{◌≡◌};

use crate::owner::Owner;
use crate::states::Reached;
use tree_model::{HandleNo, Kind, Node};

impl Reached {
    /// Whose handle it is.
    pub fn owner(&self) -> Owner
        ensures { result ≡ self.now.owner }
    {
        self.owner
    }

    /// The handle's number.
    pub fn handle(&self) -> HandleNo
        ensures { result ≡ self.now.handle }
    {
        self.handle
    }

    /// The node that the handle is open on.
    pub fn node(&self) -> Node
        ensures { result ≡ self.now.node }
    {
        self.node
    }

    /// What the node is.
    pub fn kind(&self) -> Kind
        ensures { result ≡ self.now.kind }
    {
        self.kind
    }
}
