//! Laws of canonical texts.
ghost use Rattle.sf_print.specs.Laws.{ReadAgain, BuiltAndRead, OneCanonicalText, OneNetwork};

/// A network has one canonical text, which is that of no other.
pub fn one_canonical_text()
    ensures one { OneCanonicalText }
    ensures apart { OneNetwork }
{}

/// The canonical text of a network is a text of it, and so is read as it, where it is not too long; of a network that was
/// built, where its names are names, its numbers are within 64 bits, and it is within the limits.
pub fn canonical_text_is_read()
    ensures read { ReadAgain }
    ensures built { BuiltAndRead }
{}
