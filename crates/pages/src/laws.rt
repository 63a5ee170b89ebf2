//! What holds of pages.
ghost use Rattle.pages.specs.PageLaws.{TextOpensNoTag, DataOpensNoTag};

/// No byte of a report begins a tag or a comment in a page, whatever names it has: neither where it is shown as text
/// nor where it is data. So nothing of it can end the element that it stands in.
pub fn embedded_text_opens_no_tag()
    ensures text { TextOpensNoTag }
    ensures data { DataOpensNoTag }
{}
