//! What holds of every conversation: laws, each the contract of a function without a body.
ghost use Rattle.open_or_make.specs.Promises.{CallsHold, LinksLead, OneCallIsAll};

/// Of each whole conversation, whatever the answers and the texts of links are: each call comes where it may. Flags
/// that are refused make none. The path is the program's own as long as no link was read, and has 4,095 bytes at most
/// then. At most 40 links are followed, and none is read without leave. The reply is what the last call's answer says:
/// there is no other end. There are 217 calls at most.
pub fn calls_hold()
    ensures { CallsHold }
{}

/// If what is there is only looked for, or what is made must be missing, the first call is the last one.
pub fn one_call_is_all()
    ensures { OneCallIsAll }
{}

/// A link's text stands behind the directory's part of the path, or at the beginning if it begins with a slash.
pub fn links_are_followed_in_turn()
    ensures { LinksLead }
{}
