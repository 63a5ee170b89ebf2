//! What holds of every conversation: laws, each the contract of a function without a body.
ghost use Rattle.make_through_links.specs.Promises.{CallsHold, LinksLead};

/// Of each whole conversation, whatever the answers and the texts of links are: each call walks its part of the path.
/// The path is the program's own as long as no link was followed, and has 4,095 bytes at most then. At most 40 links
/// are followed. Without leave none is, and none is looked for on the way. A file is made right after the call that
/// made the directories above it. What a call gave is closed right after it, unless it is the reply. The reply is what
/// the last call's answer says: there is no other end. There are 360 calls at most.
pub fn calls_hold()
    ensures { CallsHold }
{}

/// A link that is followed leads here: its text stands in the place of its name, behind the path of its directory, or
/// at the beginning if the text begins with a slash. What came behind the link comes behind the text, with one slash
/// between.
pub fn links_are_followed_in_turn()
    ensures { LinksLead }
{}
