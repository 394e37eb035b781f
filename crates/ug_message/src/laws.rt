//! Laws over the definitions, each on a function that does nothing.

ghost use Rattle.std.specs.Prelude.{◌≡◌, ◌≤◌, List, ℕ, length, Some, None, true, false, Ok, Err, Bool, ◌∷◌, ◌++◌, ◌⊎◌, []};
ghost use Rattle.ug_types.specs.declared.capabilities.Capabilities as sessions;
ghost use Rattle.ug_types.specs.Messages.{Message};
ghost use Rattle.ug_types.specs.Sessions.{message_limit};
ghost use Rattle.ug_types.specs.declared.family.Family.{Family};
ghost use Rattle.ug_types.specs.declared.key.Key as keys;
ghost use Rattle.ug_message.specs.Spellable.{is_route, can_be_spelled};
ghost use Rattle.ug_types.specs.declared.family.Family.TheVariants.{V4};
ghost use Rattle.ug_message.specs.RoutesRead.{route_at};
ghost use Rattle.ug_message.specs.AttributesRead.{read_attributes, read_multiprotocol};
ghost use Rattle.ug_message.specs.Walking.{Fault, fault};
ghost use Rattle.ug_message.specs.Reading.{message_type, IsWhole, Spells, HasFault};
ghost use Rattle.ug_message.specs.Received.{IsStream, IsFaultyAt};
ghost use Rattle.ug_message.specs.Streams.{IsCut, IsSentForm, IsUpdate, IsHeeded};
ghost use Rattle.ug_message.specs.Texts.{written};
ghost use Rattle.ug_types.specs.Attributes.{Attributes, refusal_of};
ghost use Rattle.ug_message.specs.Spelling.{attributes, route};
ghost use Rattle.ug_message.specs.Lengths.{HasShortValues};

/// A message has one text, and its text is the same in each session of the same family and with the same identifiers
/// whose limit it is within.
pub fn one_text()
    ensures one_text { (c : sessions.Capabilities) (m : Message) (text : List ℕ) (again : List ℕ) → written c m ≡ Some text → written c m ≡ Some again → text ≡ again }
    ensures same { (c : sessions.Capabilities) (d : sessions.Capabilities) (m : Message) (text : List ℕ) → c.family ≡ d.family → c.add_path ≡ d.add_path →
        written c m ≡ Some text → length text ≤ message_limit d → written d m ≡ Some text }
    ensures within { (c : sessions.Capabilities) (m : Message) (text : List ℕ) → written c m ≡ Some text → length text ≤ message_limit c }
{}

/// Attributes that fit a message have no value that is too long, nor have those that nothing refuses from within.
pub fn values_are_short()
    ensures fitting { (a : Attributes) → length (attributes a) ≤ 65535 → HasShortValues a }
    ensures within_limits { (a : Attributes) → refusal_of a ≡ None → HasShortValues a }
{}

/// A route that was written is read as the same, whatever follows.
pub fn route_again()
    ensures { (family : Family) (add_path : Bool) (key : keys.Key) (rest : List ℕ) → is_route family add_path key ≡ true →
        route_at family add_path (route add_path key ++ rest) ≡ Ok (key, length (route add_path key)) }
{}

/// Attributes that were written are read as the same, whether they are needed or not.
pub fn attributes_again()
    ensures { (need : Bool) (a : Attributes) → can_be_spelled V4 a ≡ true → HasShortValues a → read_attributes need (attributes a) ≡ Ok (Some a) }
{}

/// Attributes whose first fault is known: the head passes the end, a type comes twice, flags and a length of another
/// kind, a partial bit on one that nobody passes on unknown, a fourth origin, a segment without numbers, a path that is
/// missing, an unknown type that isn't optional, another family, and a next hop of four bytes. An unknown optional type
/// is passed over.
pub fn attribute_faults()
    ensures cut_short { read_attributes false (64 ∷ 1 ∷ []) ≡ Err (fault 1 0) }
    ensures twice { read_attributes false (64 ∷ 1 ∷ 1 ∷ 0 ∷ 64 ∷ 1 ∷ 1 ∷ 0 ∷ []) ≡ Err (fault 2 4) }
    ensures other_flags { read_attributes false (192 ∷ 1 ∷ 1 ∷ 0 ∷ []) ≡ Err (fault 3 0) }
    ensures partial { read_attributes false (160 ∷ 4 ∷ 4 ∷ 0 ∷ 0 ∷ 0 ∷ 7 ∷ []) ≡ Err (fault 3 0) }
    ensures other_length { read_attributes false (64 ∷ 1 ∷ 2 ∷ 0 ∷ 0 ∷ []) ≡ Err (fault 4 0) }
    ensures fourth_origin { read_attributes false (64 ∷ 1 ∷ 1 ∷ 3 ∷ []) ≡ Err (fault 5 0) }
    ensures empty_segment { read_attributes false (64 ∷ 2 ∷ 2 ∷ 2 ∷ 0 ∷ []) ≡ Err (fault 6 0) }
    ensures missing { read_attributes true (64 ∷ 1 ∷ 1 ∷ 0 ∷ []) ≡ Err (fault 7 0) }
    ensures unknown { read_attributes false (64 ∷ 30 ∷ 0 ∷ []) ≡ Err (fault 8 0) }
    ensures unknown_optional { read_attributes false (128 ∷ 30 ∷ 0 ∷ []) ≡ Ok None }
    ensures other_family { read_multiprotocol (128 ∷ 15 ∷ 3 ∷ 0 ∷ 1 ∷ 1 ∷ []) ≡ Err (fault 9 0) }
    ensures short_next_hop { read_multiprotocol (128 ∷ 14 ∷ 5 ∷ 0 ∷ 2 ∷ 1 ∷ 4 ∷ 0 ∷ []) ≡ Err (fault 9 0) }
{}

/// No whole message is a proper front of another. A whole message says one thing or has one first fault, and never
/// both.
pub fn whole_messages()
    ensures no_proper_prefix { (m : List ℕ) → (other : List ℕ) → (more : List ℕ) → IsWhole m → IsWhole other → other ≡ m ++ more → more ≡ [] }
    ensures either { (c : sessions.Capabilities) → (m : List ℕ) → IsWhole m →
        (((says : Message) × Spells c m says) ⊎ ((first : Fault) × HasFault c m first)) }
    ensures says_once { (c : sessions.Capabilities) → (m : List ℕ) → (one : Message) → (other : Message) →
        Spells c m one → Spells c m other → one ≡ other }
    ensures fails_once { (c : sessions.Capabilities) → (m : List ℕ) → (one : Fault) → (other : Fault) →
        HasFault c m one → HasFault c m other → one ≡ other }
    ensures never_both { (c : sessions.Capabilities) → (m : List ℕ) → (says : Message) → (first : Fault) →
        Spells c m says → HasFault c m first → ⊥ }
{}

/// A stream is in one way these messages and then less than a whole one, or these messages and then a fault, and
/// never both: so it doesn't matter in which pieces it comes.
pub fn streams()
    ensures messages_once { (c : sessions.Capabilities) → (stream : List ℕ) → (messages : List Message) → (others : List Message) → (left : List ℕ) → (rest : List ℕ) →
        IsStream c stream messages left → IsStream c stream others rest → (messages ≡ others) × (left ≡ rest) }
    ensures fault_once { (c : sessions.Capabilities) → (stream : List ℕ) → (messages : List Message) → (others : List Message) →
        (cause : ℕ) → (cause' : ℕ) → (offset : ℕ) → (offset' : ℕ) →
        IsFaultyAt c stream messages cause offset → IsFaultyAt c stream others cause' offset' →
        (messages ≡ others) × (cause ≡ cause') × (offset ≡ offset') }
    ensures never_both { (c : sessions.Capabilities) → (stream : List ℕ) → (messages : List Message) → (others : List Message) → (left : List ℕ) → (cause : ℕ) → (offset : ℕ) →
        IsStream c stream messages left → IsFaultyAt c stream others cause offset → ⊥ }
{}

/// What is written of a message spells it, and nothing else.
pub fn written_again()
    ensures spells { (c : sessions.Capabilities) → (m : Message) → (text : List ℕ) → written c m ≡ Some text → Spells c text m }
    ensures only { (c : sessions.Capabilities) → (m : Message) → (other : Message) → (text : List ℕ) → written c m ≡ Some text → Spells c text other → other ≡ m }
{}

/// A session's bytes are received as the messages that they were written of, with the same rest. A rest of an UPDATE has
/// the header of one, where it has all of it.
pub fn sent_and_received()
    ensures updates { (c : sessions.Capabilities) → (bytes : List ℕ) → (messages : List Message) → (rest : List ℕ) →
        IsSentForm c IsUpdate bytes messages rest → IsStream c bytes messages rest }
    ensures heeded { (c : sessions.Capabilities) → (bytes : List ℕ) → (messages : List Message) → (rest : List ℕ) →
        IsSentForm c IsHeeded bytes messages rest → IsStream c bytes messages rest }
    ensures rest { (c : sessions.Capabilities) → (rest : List ℕ) → IsCut c IsUpdate rest → 19 ≤ length rest → message_type rest ≡ 2 }
{}
