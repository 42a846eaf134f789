//! A number's text, cut into its parts.
ghost use Rattle.std.specs.Prelude.{◌≡◌, ℕ, List, ◌∷◌, Option, IfSome, IfNone};
ghost use Rattle.std.specs.Char.{is_ascii_digit};
ghost use Rattle.std.specs.List.{prefix_len};
ghost use Rattle.sn_geom.specs.Decimal.{Exponent, IsNumberText};
ghost use Rattle.sn_geom.specs.NumberPieces.{StartsWith, CutsSign, CutsDigits, CutsFraction, IsExponentText, ReadsExponent, ReadsParts};

/// What a number's text says: its sign, its digits before the point and after it, and its exponent.
#[derive(Drop)]
pub struct Parts<'a> {
    pub negative: bool,
    pub whole: &'a [u8],
    pub fraction: &'a [u8],
    pub exponent: Power<'a>,
}

/// An exponent: no digits where none is written.
#[derive(Drop)]
pub struct Power<'a> {
    pub negative: bool,
    pub digits: &'a [u8],
}

/// The parts of a number's text, where `text` is one.
pub fn split(text: &[u8]) -> Option<Parts<'_>>
    ensures found { IfSome result (λ p.
        ReadsParts text.now p.negative p.whole.now p.fraction.now p.exponent.negative p.exponent.digits.now) }
    ensures none { IfNone result (¬ IsNumberText text.now) }
{
    let (negative, rest) = split_sign(text);
    let (whole, rest) = split_digits(rest);
    if whole.is_empty() {
        return None;
    }
    let (fraction, rest) = split_fraction(rest);
    let exponent = read_exponent(rest)?;
    Some(Parts {
        negative,
        whole,
        fraction,
        exponent,
    })
}

/// Whether a minus stands first, and what follows the sign.
fn split_sign(text: &[u8]) -> (bool, &[u8])
    ensures { CutsSign text.now result.0 result.1.now }
{
    if let Some(rest) = after(text, b'-') {
        return (true, rest);
    }
    if let Some(rest) = after(text, b'+') {
        return (false, rest);
    }
    (false, text)
}

/// The digits that stand first, and what follows them.
fn split_digits(text: &[u8]) -> (&[u8], &[u8])
    ensures { CutsDigits text.now result.0.now result.1.now }
{
    text.split_at(digits_first(text))
}

/// How many digits stand first.
fn digits_first(text: &[u8]) -> usize
    ensures { result ≡ prefix_len is_ascii_digit text.now }
{
    text.iter().take_while(|byte| byte.is_ascii_digit()).count()
}

/// The digits behind a point that stands first, and what follows them.
fn split_fraction(text: &[u8]) -> (&[u8], &[u8])
    ensures { CutsFraction text.now result.0.now result.1.now }
{
    match after(text, b'.') {
        Some(rest) => split_digits(rest),
        None => (&[], text),
    }
}

/// The exponent that is the whole text, or none where the text is empty.
fn read_exponent(text: &[u8]) -> Option<Power<'_>>
    ensures found { IfSome result (λ e. ReadsExponent text.now e.negative e.digits.now) }
    ensures none { IfNone result ((e : Option Exponent) → ¬ IsExponentText text.now e) }
{
    if text.is_empty() {
        return Some(Power {
            negative: false,
            digits: &[],
        });
    }
    let (negative, rest) = split_sign(after(text, b'E')?);
    let (digits, rest) = split_digits(rest);
    if digits.is_empty() {
        return None;
    }
    if !rest.is_empty() {
        return None;
    }
    Some(Power { negative, digits })
}

/// What follows `mark`, where it stands first.
fn after(text: &[u8], mark: u8) -> Option<&[u8]>
    ensures found { IfSome result (λ rest. text.now ≡ mark ∷ rest.now) }
    ensures none { IfNone result (¬ StartsWith mark text.now) }
{
    text.strip_prefix(&[mark])
}
