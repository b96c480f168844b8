// Laws on openings, entries and states as lists of numbers, for a table of turns. Each is a function without a body, whose contract is
// the law; no program calls them.
ghost use Rattle.std.specs.Prelude.{◌≡◌, ◌∷◌, ℕ, List, [], true, false};
ghost use Rattle.tree_rules.specs.declared.call.Call.{Call};
ghost use Rattle.tree_rules.specs.declared.reply.Reply.{Reply};
ghost use Rattle.tree_rules.specs.History.{Entry, Opening, States, SlotState, has, opened, states_after};
ghost use Rattle.tree_rules.specs.Codes.{entry_list, numbers};
ghost use Rattle.tree_rules.specs.Table.{FitsLists, LegalLists, Reads, Tells, after_entry, opening_list, slot_list, start, touches};
ghost use Rattle.tree_rules.specs.Commits.{Bears};

/// Two entries never have the same list, nor have two openings with the entries of their opening calls. The list of a slot is that of one
/// slot over one opening, and tells one state.
pub fn lists_have_one_reading()
    ensures entry { (d e : Entry) → entry_list d ≡ entry_list e → d ≡ e }
    ensures opening { (f g : Opening) (o p : List Entry) → opening_list f o ≡ opening_list g p → (f ≡ g) × (o ≡ p) }
    ensures slot { (j k : ℕ) (l m : List ℕ) (ds es : List Entry) → slot_list j l ds ≡ slot_list k m es → (j ≡ k) × (l ≡ m) }
    ensures state { (f : Opening) (o : List Entry) (k : ℕ) (s : List ℕ) (x y : SlotState) → Tells f o k s x → Tells f o k s y → x ≡ y }
{}

/// An entry's list begins with its caller, and then has the slots that it touches. An entry that fits looks at the lists of the slots that
/// it touches alone, and leaves those of all others alone.
pub fn entries_touch_their_lists()
    ensures caller { (e : Entry) → (rest : List ℕ) × (entry_list e ≡ e.caller ∷ numbers e.chain rest) }
    ensures touches { (e : Entry) (k : ℕ) → touches (entry_list e) k ≡ has e.chain k }
    ensures near { (o e : List ℕ) (s t : ℕ → List ℕ) → ((k : ℕ) → touches e k ≡ true → s k ≡ t k) → FitsLists o s e → FitsLists o t e }
    ensures leaves { (o e : List ℕ) (s : ℕ → List ℕ) (k : ℕ) → FitsLists o s e → touches e k ≡ false → after_entry o k (s k) e ≡ s k }
{}

/// A legal history of lists over an opening is that of entries, which is legal behind the opening calls; and the list of each slot tells
/// its state after them.
pub fn histories_of_lists_are_histories()
    ensures { (f : Opening) (o : List Entry) (h : List (List ℕ)) → LegalLists (opening_list f o) (start (opening_list f o)) h →
        Reads f o (start (opening_list f o)) (states_after f.plan (opened f) o) h }
{}

/// What the test of a commit gives: the entry fits the lists of the slots that are held, and the new value of each that it touches stands for
/// the slot's list after it.
pub fn entries_may_be_committed()
    ensures commit { (f : Opening) (o : List Entry) (caller : ℕ) (s : ℕ → List ℕ) (new : States) (c : Call) (string : List ℕ) (reply : Reply)
        (bytes e : List ℕ) → Bears f o caller s new c string reply bytes e → FitsLists (opening_list f o) s e }
    ensures put { (f : Opening) (o : List Entry) (caller : ℕ) (s : ℕ → List ℕ) (new : States) (c : Call) (string : List ℕ) (reply : Reply)
        (bytes e : List ℕ) → Bears f o caller s new c string reply bytes e → (k : ℕ) → touches e k ≡ true →
        Tells f o k (after_entry (opening_list f o) k (s k) e) (new k) }
{}
