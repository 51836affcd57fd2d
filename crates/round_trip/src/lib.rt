//! What is true of reading and printing together: each function bears a theorem in its contract.

#![tactic(auto)]

ghost use Rattle.round_trip.specs.Alike.{PlacesApart, KeptApart};
ghost use Rattle.round_trip.specs.Apart.{CallsApart};
ghost use Rattle.round_trip.specs.Calls.{Run, opened};
ghost use Rattle.round_trip.specs.Examples.{Examples};
ghost use Rattle.round_trip.specs.Faithful.{ReadsBack, ReadsAnywhere, TellsApart};
ghost use Rattle.round_trip.specs.Room.{ReaderShaped, RoomBack, PrintBound, PrintFits, ReadRoom, ReadFits};
ghost use Rattle.round_trip.specs.Strict.{TapeFirst, TapeStrict, TapeOneWay};
ghost use Rattle.round_trip.specs.Tapes.{TapeAgain, TapeLawful, WordsTell};
ghost use Rattle.round_trip.specs.Whole.{Whole};

/// The worked examples hold of the definitions: a file with a statement of every kind from its text to words and back, the room
/// of files, find, what a catalogue refuses, and lists of calls.
pub fn examples_stand()
    ensures { Examples }
{}

/// After any two lists of calls two catalogues agree in what they answer, print and load: a file of one, carried as words to the
/// other, stands there equal apart from places, in no more room, and equal words are equal files.
pub fn catalogues_agree()
    ensures { (east west : Run opened) → Whole east west }
{}

/// What was read is read again from what it is printed as, and different files are printed differently, apart from places.
pub fn printing_is_faithful()
    ensures { ReadsBack × ReadsAnywhere × TellsApart }
{}

/// What is alike is read alike: the same tokens and the same ending give the same tree apart from places, or are refused with
/// the same layer and number.
pub fn places_stand_apart()
    ensures { PlacesApart }
{}

/// Trees that are equal apart from places are kept alike: as models equal apart from places, in the same room.
pub fn trees_stand_apart()
    ensures { KeptApart }
{}

/// No call but `places` tells apart ledgers and sources that are equal apart from places.
pub fn calls_stand_apart()
    ensures { CallsApart }
{}

/// The words of well formed tokens mean those tokens and a clean end.
pub fn tapes_read_again()
    ensures { TapeAgain }
{}

/// Every token of a tape is well formed, and every place in range.
pub fn tapes_are_lawful()
    ensures { TapeLawful }
{}

/// The words tell the tokens.
pub fn words_tell()
    ensures { WordsTell }
{}

/// A tape that gives a token first begins with just that token's words.
pub fn tapes_begin_strictly()
    ensures { TapeFirst }
{}

/// A tape that means tokens and a clean end begins with the words that they are printed as.
pub fn tapes_are_strict()
    ensures { TapeStrict }
{}

/// Two tapes that end clean and mean the same tokens agree up to and with the end word.
pub fn tapes_agree()
    ensures { TapeOneWay }
{}

/// Every tree that the reader gives is whole: each record has the parts that its kind needs.
pub fn trees_are_whole()
    ensures { ReaderShaped }
{}

/// A printed file, read again, takes no more room.
pub fn room_comes_back()
    ensures { RoomBack }
{}

/// A file that was read, printed and read again takes no more room.
pub fn read_files_keep_room()
    ensures { ReadRoom }
{}

/// A file is printed as no more words than its records and text allow.
pub fn words_are_bounded()
    ensures { PrintBound }
{}

/// What a catalogue holds is printed as a tape that can be read.
pub fn prints_fit()
    ensures { PrintFits }
{}

/// A file that was read and fits a catalogue is printed as a tape that can be read.
pub fn read_files_fit()
    ensures { ReadFits }
{}
