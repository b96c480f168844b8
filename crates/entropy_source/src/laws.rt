// Laws on acts in a row: each is a function without a body, whose contract is the law. No program calls them; they tie the step
// from state to state to what is counted on all acts, and an answer to its acts.
ghost use Rattle.std.specs.Prelude.{◌≡◌, ◌+◌, ◌-◌, ◌*◌, ◌++◌, ℕ, List, [], length, drop, map, sum, true, false, Option, Some, None, Result, Ok, Err};
ghost use Rattle.std.specs.Option.{option_map};
ghost use Rattle.health_tests.specs.Windows.{alarm_in};
ghost use Rattle.health_tests.specs.Numbers.{tail_of, alarm_from};
ghost use Rattle.health_tests.specs.declared.numbers.Tail.{Tail};
ghost use Rattle.health_tests.specs.declared.windows.Alarm.{Alarm};
ghost use Rattle.conditioner.specs.Conditioned.{block_len};
ghost use Rattle.entropy_source.specs.Source.{SourceAct, SourceState, opened_source, source_after_all, blocks_for, need_of, need_of_block};
ghost use Rattle.entropy_source.specs.Draws.{Draws, Drawn, Start, portions, found_in};
ghost use Rattle.entropy_source.specs.Counted.{samples_of, blocks_of, alarms_of, mode_after, tested_after, alarmed_after, faults_after, lacking_after, behind};
ghost use Rattle.entropy_source.specs.Outcomes.{Outcome};
ghost use Rattle.entropy_source.specs.Reads.{LeadBy};
ghost use Rattle.entropy_source.specs.declared.answers.SourceRow.{SourceRow};
ghost use Rattle.entropy_source.specs.declared.answers.SourceRefusal.{SourceRefusal};
ghost use Rattle.entropy_source.specs.declared.answers.SourceMode.TheVariants as modes;

use sample_source::Samples;

/// The state of a source, counted on all its acts since it was opened: the samples taken are those that all reads gave, blocks
/// and alarms are the acts of that kind, the samples to come are those behind the ones given, the mode is that of the last of
/// Began, Started and Alarmed, what the tests keep is counted on the samples since the last Began, and is nothing where there
/// is an alarm since, and the faults are those that the last read counted.
pub fn states_are_counted()
    ensures taken { (row : SourceRow) (told : Option (List ℕ)) (faults : ℕ) (acts : List SourceAct) →
        (source_after_all row (opened_source told faults) acts).taken ≡ length (samples_of acts) }
    ensures blocks { (row : SourceRow) (told : Option (List ℕ)) (faults : ℕ) (acts : List SourceAct) →
        (source_after_all row (opened_source told faults) acts).blocks ≡ blocks_of acts }
    ensures alarms { (row : SourceRow) (told : Option (List ℕ)) (faults : ℕ) (acts : List SourceAct) →
        (source_after_all row (opened_source told faults) acts).alarms ≡ alarms_of acts }
    ensures told { (row : SourceRow) (told : Option (List ℕ)) (faults : ℕ) (acts : List SourceAct) →
        (source_after_all row (opened_source told faults) acts).told ≡ option_map (λ xs. drop (length (samples_of acts)) xs) told }
    ensures mode { (row : SourceRow) (told : Option (List ℕ)) (faults : ℕ) (acts : List SourceAct) →
        (source_after_all row (opened_source told faults) acts).mode ≡ mode_after modes.Idle acts }
    ensures tail { (row : SourceRow) (told : Option (List ℕ)) (faults : ℕ) (acts : List SourceAct) → alarmed_after false acts ≡ false →
        (source_after_all row (opened_source told faults) acts).tail ≡ Some (tail_of row.cutoffs.window (tested_after [] acts)) }
    ensures no_tail { (row : SourceRow) (told : Option (List ℕ)) (faults : ℕ) (acts : List SourceAct) → alarmed_after false acts ≡ true →
        (source_after_all row (opened_source told faults) acts).tail ≡ None }
    ensures faults { (row : SourceRow) (told : Option (List ℕ)) (faults : ℕ) (acts : List SourceAct) →
        (source_after_all row (opened_source told faults) acts).faults ≡ faults_after faults acts }
{}

/// Which answer a start gives: HealthFailed exactly where there is an alarm among the samples that it read, at the first one,
/// WantOfEntropy exactly where a read gave none, with what the start-up still lacked, and SourceFault exactly where a read failed.
pub fn starts_end_by_their_reads()
    ensures { (row : SourceRow) (s : SourceState) (acts : List SourceAct) (result : Result (List ℕ) SourceRefusal) → Start row s acts result →
        Outcome s.taken (alarm_in row.cutoffs [] (samples_of acts)) (row.startup - length (samples_of acts)) acts result }
{}

/// The same of a draw, whose alarm is the first one behind what the tests kept of the samples before, and where what was missing
/// is what the present block still lacked.
pub fn draws_end_by_their_reads()
    ensures { (row : SourceRow) (t : Tail) (s : SourceState) (wants : List ℕ) (acts : List SourceAct) (result : Result (List ℕ) SourceRefusal) →
        Drawn row (found_in row.cutoffs (Some t)) s wants acts result →
        Outcome s.taken (alarm_from row.cutoffs t (samples_of acts)) (lacking_after (need_of_block row) (need_of_block row) acts) acts result }
{}

/// A draw of blocks that was answered, and another from the state that it left: together they are one draw of all the blocks,
/// with the bytes of both. Each tells alarms by what the tests keep at its own beginning.
pub fn draws_join()
    ensures { (row : SourceRow) (t : Tail) (n m : ℕ) (s : SourceState) (acts : List SourceAct) (mid : List ℕ) (more : List SourceAct)
        (end : Result (List ℕ) SourceRefusal) → s.tail ≡ Some t →
        Draws row (found_in row.cutoffs (Some t)) n s [] [] acts (Ok mid) →
        Draws row (found_in row.cutoffs (source_after_all row s acts).tail) m (source_after_all row s acts) [] [] more end →
        Draws row (found_in row.cutoffs (Some t)) (n + m) s [] [] (acts ++ more) (behind mid end) }
{}

/// Reads that lead from samples to samples, and others that lead on from there: together they lead from the first to the last.
pub fn reads_join<S: Samples>()
    ensures { (before mid after : S) (acts more : List SourceAct) → LeadBy S.reads S.faults before acts mid →
        LeadBy S.reads S.faults mid more after → LeadBy S.reads S.faults before (acts ++ more) after }
{}

/// A draw that was refused while samples were read is refused by the same acts where more lengths are drawn.
pub fn refused_draws_stay_refused()
    ensures { (row : SourceRow) (found : List ℕ → List ℕ → Option Alarm) (s : SourceState) (xs ys : List ℕ) (acts : List SourceAct) (why : SourceRefusal) →
        Drawn row found s xs acts (Err why) → Drawn row found s (xs ++ ys) acts (Err why) }
{}

/// A draw of blocks that was answered gives all bytes of its blocks, behind those given before.
pub fn draws_give_whole_blocks()
    ensures { (row : SourceRow) (found : List ℕ → List ℕ → Option Alarm) (n : ℕ) (s : SourceState) (read : List ℕ) (out : List ℕ)
        (acts : List SourceAct) (bytes : List ℕ) → Draws row found n s read out acts (Ok bytes) → length bytes ≡ length out + n * block_len row.cond }
{}

/// Draws of several lengths, one that was answered and another from the state that it left, are one draw of all the lengths, and
/// each length gets of the bytes of both what it gets of its own draw's. They take as many samples as both.
pub fn portions_join()
    ensures drawn { (row : SourceRow) (t : Tail) (xs : List ℕ) (ys : List ℕ) (s : SourceState) (acts : List SourceAct) (mid : List ℕ)
        (more : List SourceAct) (end : Result (List ℕ) SourceRefusal) → s.tail ≡ Some t →
        Drawn row (found_in row.cutoffs (Some t)) s xs acts (Ok mid) →
        Drawn row (found_in row.cutoffs (source_after_all row s acts).tail) (source_after_all row s acts) ys more end →
        Drawn row (found_in row.cutoffs (Some t)) s (xs ++ ys) (acts ++ more) (behind mid end) }
    ensures portions { (row : SourceRow) (xs : List ℕ) (ys : List ℕ) (bs : List ℕ) (cs : List ℕ) →
        length bs ≡ sum (map (λ n. blocks_for row n) xs) * block_len row.cond →
        portions row (xs ++ ys) (bs ++ cs) ≡ portions row xs bs ++ portions row ys cs }
    ensures need { (row : SourceRow) (xs ys : List ℕ) → need_of row (xs ++ ys) ≡ need_of row xs + need_of row ys }
{}
