//! What is proved of the spellings of letters.
ghost use Rattle.cam_wire.specs.OneSet.{HasSpelling, SpelledHasOneSet};
ghost use Rattle.cam_wire.specs.Laws.{SpellingsAreRead, BeginningsAreShort, NoneBeginsAnother, NoSpellingBeginsAnother, ReadIsSpelled, HasOneSpelling, BytesBehindAreRest, FaultsStay, ShortIsAtTheEnd};

/// Each letter in its ranges whose names have one dependency set each, with fewer than 4,294,967,296 aborts and as many commits, has exactly
/// one spelling; a letter with two dependency sets of one name has none. What is a spelling of a letter is read as that letter, and what is
/// read as a letter is a spelling of it. Bytes after a letter are too many, and a fault other than `Short` stays at its place, whatever is
/// put after; a `Short` is at the end of the bytes. So each proper beginning of what is read is short at its own length, and no spelling
/// begins another.
pub fn spellings()
    ensures read { SpellingsAreRead }
    ensures exactly { ReadIsSpelled }
    ensures has { HasSpelling }
    ensures one { HasOneSpelling }
    ensures one_set { SpelledHasOneSet }
    ensures rest { BytesBehindAreRest }
    ensures stays { FaultsStay }
    ensures short { ShortIsAtTheEnd }
    ensures beginnings { BeginningsAreShort }
    ensures others { NoneBeginsAnother }
    ensures spellings { NoSpellingBeginsAnother }
{}
