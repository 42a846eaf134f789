//! The separators between tokens: blanks and comments.
ghost use Rattle.std.specs.Prelude.{MatchOption};
ghost use Rattle.sn_lex.specs.Form.{IsCommentBody};
ghost use Rattle.sn_lex.specs.Split.{LeavesComment, LeavesSeparator, HasNoSeparator, LeavesSeparators};

use crate::parts::after_byte;

/// What follows the comment whose body begins the bytes, where it is closed.
fn after_comment(bytes: &[u8]) -> Option<&[u8]>
    ensures { MatchOption result (IsCommentBody bytes.now) (λ after. LeavesComment bytes.now after.now) }
{
    for end in 1..bytes.len() {
        if bytes[end - 1] == b'*' && bytes[end] == b'/' {
            return Some(&bytes[end + 1..]);
        }
    }
    None
}

/// What follows the separator with which the bytes begin.
fn after_separator(bytes: &[u8]) -> Option<&[u8]>
    ensures { MatchOption result (HasNoSeparator bytes.now) (λ after. LeavesSeparator bytes.now after.now) }
{
    match bytes.split_first() {
        Some((first, after)) => {
            if first.is_ascii_whitespace() {
                Some(after)
            } else {
                after_comment(after_byte(after_byte(bytes, b'/')?, b'*')?)
            }
        }
        None => None,
    }
}

/// What follows the separators with which the bytes begin. A comment that is not closed is left.
pub fn skip_separators(bytes: &[u8]) -> &[u8]
    ensures skipped { LeavesSeparators bytes.now result.now }
    ensures none_left { HasNoSeparator result.now }
{
    let mut rest = bytes;
    while let Some(after) = after_separator(rest) {
        rest = after;
    }
    rest
}
