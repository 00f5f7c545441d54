//! The laws of the definitions, each the contract of a function that does nothing.
ghost use Rattle.std.specs.Prelude.{◌≡◌, ℕ, List, All, Option, Some, length, false, Ok};
ghost use Rattle.dpe_base.specs.declared.pair.Pair.{Pair};
ghost use Rattle.join_graph.specs.Graphs.{JoinGraph};
ghost use Rattle.join_tree.specs.Trees.{cost};
ghost use Rattle.pair_stream.specs.Orders.{Complete};
ghost use Rattle.query_json.specs.declared.entry.Entry.{Entry};
ghost use Rattle.query_json.specs.declared.entry.Named.{Named};
ghost use Rattle.query_json.specs.declared.entry.Part.TheVariants.{Accepted};
ghost use Rattle.query_json.specs.Entries.{entries_of};
ghost use Rattle.query_json.specs.Sound.{IsEntrySound, IsSound};
ghost use Rattle.plan_report.specs.Certs.Members.{Certificate};
ghost use Rattle.dpe_words.specs.declared.choices.Settings.{Settings};
ghost use Rattle.dpe_top.specs.declared.modes.check.Verdict.{Verdict};
ghost use Rattle.dpe_top.specs.declared.modes.check.Verdict.TheVariants.{Optimal};
ghost use Rattle.dpe_top.specs.Modes.Certify.{AreMembers, Certifies};
ghost use Rattle.dpe_top.specs.Modes.Check.{AreVerdicts, IsVerdict, some_wrong};
ghost use Rattle.dpe_top.specs.Modes.Report.{IsReport};
ghost use Rattle.dpe_top.specs.Modes.Sample.{IsSample};

/// Two lists of all csg-cmp-pairs of a graph are as long: how many a query has is one number.
pub fn one_count()
    ensures { (g : JoinGraph) (first second : List Pair) → Complete g first → Complete g second → length first ≡ length second }
{}

/// A number and a model have one summary, whatever enumerator, buffers and workers planned its queries.
pub fn one_sample()
    ensures { (model number : ℕ) (first second : List ℕ) → IsSample model number first → IsSample model number second → first ≡ second }
{}

/// Settings and the bytes of a workload have one report.
pub fn one_report()
    ensures { (settings : Settings) (bytes : List ℕ) (entries : List Entry) (first second : List ℕ) → entries_of bytes ≡ Ok entries
        → IsReport settings entries first → IsReport settings entries second → first ≡ second }
{}

/// The report is the same for each number of workers.
pub fn workers_do_not_show()
    ensures { (settings other : Settings) (bytes : List ℕ) (entries : List Entry) (first second : List ℕ) → entries_of bytes ≡ Ok entries
        → other ≡ record settings { workers = other.workers }
        → IsReport settings entries first → IsReport other entries second → first ≡ second }
{}

/// Without statistics the report is the same for each enumerator, buffer and number of workers.
pub fn only_statistics_show_the_enumerator()
    ensures { (settings other : Settings) (bytes : List ℕ) (entries : List Entry) (first second : List ℕ) → entries_of bytes ≡ Ok entries
        → settings.stats ≡ false → other ≡ record settings { enumerator = other.enumerator; buffer = other.buffer; workers = other.workers }
        → IsReport settings entries first → IsReport other entries second → first ≡ second }
{}

/// What certify writes, check confirms: the verdict on each certificate is the plan's cost, and no verdict on a workload's
/// members is wrong.
pub fn certificates_are_confirmed()
    ensures each { (model : ℕ) (named : Named) (c : Certificate) (verdict : Verdict) → IsSound named → Certifies model named.query c
        → IsVerdict model (Accepted named) (Some c) verdict → verdict ≡ Optimal (cost model named.query c.tree) }
    ensures all { (model : ℕ) (entries : List Entry) (certs : List (Option Certificate)) (verdicts : List Verdict)
        → All IsEntrySound entries → AreMembers model entries certs → AreVerdicts model entries certs verdicts
        → some_wrong verdicts ≡ false }
{}
