//! Laws of answers and of transcripts.
ghost use Rattle.std.specs.Prelude.{ℕ, ◌≡◌, ◌≢◌, ◌++◌, List, Option, Some, Result, Err};
ghost use Rattle.rectangle_pack.specs.declared.session.command.Packed.{Packed};
ghost use Rattle.rectangle_pack.specs.declared.session.command.SessionError.{SessionError};
ghost use Rattle.rectangle_pack.specs.Promise.{PacksAsPromised};
ghost use Rattle.rectangle_pack.specs.Session.{IsSession, packed_reply};
ghost use Rattle.packrun_lines.specs.Requests.{Request};
ghost use Rattle.packrun_lines.specs.Answers.{Answers};
ghost use Rattle.packrun_lines.specs.Store.{name_cmp, Store, PacksBoxes, empty_store, group_order, volume_rules};
ghost use Rattle.packrun_lines.specs.Transcripts.{AreAnswered, IsTranscript, PrintsTranscript};
ghost use Rattle.packrun_lines.specs.Ends.{Ended};
ghost use Rattle.packrun_lines.specs.declared.stop.Stop.TheVariants.{NoMemory, IoFailed};

/// A law: what holds of a session always holds of each store on which lines are answered. So each
/// bin that a transcript speaks of is covered by its free sections and the boxes that stand in it,
/// which are from straight cuts of it until it is coalesced. And each packing keeps the promise
/// that the library makes of packings.
pub fn answers_keep_sessions()
    // Where what always holds of a session holds of a store before a request is answered, it holds
    //   after it.
    ensures request { (request : Request) (old new : Store) (text : List ℕ) →
        Answers request old text new →
        IsSession name_cmp old.session →
        IsSession name_cmp new.session }
    // The same of lines, one after another.
    ensures lines { (lines : List (List ℕ)) (old new : Store) (text : List ℕ) →
        AreAnswered old lines text new →
        IsSession name_cmp old.session →
        IsSession name_cmp new.session }
    // It holds of each store that answered lines leave, from the empty store on.
    ensures begun { (lines : List (List ℕ)) (new : Store) (text : List ℕ) →
        AreAnswered (empty_store 0) lines text new →
        IsSession name_cmp new.session }
    // The answered lines of a transcript can be parted anywhere. The first part is answered from
    //   the empty store on, and this holds of the store that it leaves. The second part is answered
    //   from that store on. The text is that of the first part, and then that of the second.
    ensures transcript { (input printed : List ℕ) (ended : Ended) →
        (whole : IsTranscript input printed ended) (before behind : List (List ℕ)) →
        whole.answered ≡ before ++ behind →
        (text later : List ℕ) × (between : Store) ×
        AreAnswered (empty_store 0) before text between ×
        AreAnswered between behind later whole.store × (whole.text ≡ text ++ later) ×
        IsSession name_cmp between.session }
    // Each packing keeps the promise that `Session::pack` makes of packings.
    ensures packings { (old new : Store) (answer : Result Packed SessionError) →
        PacksBoxes old answer new →
        PacksAsPromised group_order volume_rules old.boxes old.session
        (packed_reply answer) new.session }
{}

/// A law: an input has at most one transcript that does not end for want of memory. So the input
/// says what is printed, and how a run ends, where no memory is refused and no read or write fails.
/// And where memory is refused, the text of the answers before is a beginning of the text of this
/// transcript.
pub fn input_has_one_transcript()
    // Two transcripts of an input that do not end for want of memory are the same text, and end in
    //   the same way.
    ensures one { (input printed other : List ℕ) (ended other_ended : Ended) →
        IsTranscript input printed ended →
        IsTranscript input other other_ended →
        ended ≢ Err NoMemory →
        other_ended ≢ Err NoMemory →
        (printed ≡ other) × (ended ≡ other_ended) }
    // So do two runs that print them, where no read or write fails.
    ensures runs { (input before : List ℕ) (after other_after : Option (List ℕ)) →
        (ended other_ended : Ended) →
        PrintsTranscript (Some before) after ended input →
        PrintsTranscript (Some before) other_after other_ended input →
        ended ≢ Err NoMemory →
        ended ≢ Err IoFailed →
        other_ended ≢ Err NoMemory →
        other_ended ≢ Err IoFailed →
        (after ≡ other_after) × (ended ≡ other_ended) }
    // Where memory is refused, the text of the answers before is a beginning of the text of the
    //   input's transcript.
    ensures without_memory { (input printed other : List ℕ) (ended : Ended) →
        (stopped : IsTranscript input printed (Err NoMemory)) →
        (whole : IsTranscript input other ended) →
        ended ≢ Err NoMemory →
        (later : List ℕ) × (whole.text ≡ stopped.text ++ later) }
{}
