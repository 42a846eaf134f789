//! Laws of the texts.

ghost use Rattle.sn_gwrite.specs.Length.{LengthTextShowsLength, TextShowsOneLength};
ghost use Rattle.sn_gwrite.specs.ProgramLaws.{FormsAreRead, FormsTextIsLines, HeadIsForms, MarkIsForms, ChangeIsForms, RatesIsForms, MotionIsForms, EndIsForms};
ghost use Rattle.sn_gwrite.specs.AgreementExamples.{OneHoleMeans};
ghost use Rattle.sn_gwrite.specs.AgreementLaws.{HeadMeans, MarkMeans, ChangeMeans, RatesMean, RapidMeans, FeedMeans, EndMeans, PartsMeanInTurn, NoPartMeansNothing, PartsAreProgram, StatesAgreeByStage, KeptStays, UnusedIsKept};

/// The law that the text of a length, read as a decimal number of millimetres, is that length.
pub fn length_text_shows_length()
    ensures { LengthTextShowsLength }
{}

/// The law that a text is read as one length at most, so that the texts of two lengths differ.
pub fn text_shows_one_length()
    ensures { TextShowsOneLength }
{}

/// The law that each line that is written, its numbers within the limits of their words, is read as the block that
/// it stands for.
pub fn forms_are_read()
    ensures { FormsAreRead }
{}

/// The law that the text of lines is cut into these lines, whatever text follows it.
pub fn forms_text_is_lines()
    ensures { FormsTextIsLines }
{}

/// The laws that each part of a program is the text of its lines, and that these are within the limits of their words.
pub fn parts_are_forms()
    ensures head { HeadIsForms }
    ensures mark { MarkIsForms }
    ensures change { ChangeIsForms }
    ensures rates { RatesIsForms }
    ensures motion { MotionIsForms }
    ensures end { EndIsForms }
{}

/// The laws of what each part of a program means, from every state of the machine that agrees with what is kept before
/// it to one that agrees with what is kept then.
pub fn parts_mean()
    ensures head { HeadMeans }
    ensures mark { MarkMeans }
    ensures change { ChangeMeans }
    ensures rates { RatesMean }
    ensures rapid { RapidMeans }
    ensures feed { FeedMeans }
    ensures end { EndMeans }
{}

/// The laws of parts in a row: they mean their acts in a row, and from the first on they are a program; and a program
/// worked by hand.
pub fn parts_in_a_row()
    ensures in_turn { PartsMeanInTurn }
    ensures none { NoPartMeansNothing }
    ensures program { PartsAreProgram }
    ensures worked { OneHoleMeans }
{}

/// The law of agreement: what a state that agrees is before the head, between, after the end, and after a write that
/// failed.
pub fn states_agree()
    ensures { StatesAgreeByStage }
{}

/// The laws of what every emitter keeps, call by call.
pub fn kept_values()
    ensures first { UnusedIsKept }
    ensures later { KeptStays }
{}
