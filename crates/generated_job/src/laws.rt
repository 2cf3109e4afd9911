//! Laws of the generated job. The bodies are empty: what a law says is its contract. A crate above calls its function,
//! or imports the lemma that is its answer.

ghost use Rattle.std.specs.Prelude.{◌≡◌, ◌≤◌, ◌<◌, ◌+◌, ◌*◌, ◌^◌, ◌++◌, ◌∷◌, ℕ, List, Ok, None, Some, length, map};
ghost use Rattle.std.specs.Fmt.{decimal};
ghost use Rattle.std.specs.List.{sum_by, AllByRecursion};
ghost use Rattle.rank_set.specs.Ranks.{size};
ghost use Rattle.rank_set.specs.RanksText.{ranks_text};
ghost use Rattle.rank_set.specs.Runs.{ranks_between};
ghost use Rattle.rank_set.specs.declared.TheConstants.{RANK_LIMIT};
ghost use Rattle.text_lines.specs.Lines.{lines, words, number_in};
ghost use Rattle.stat_plan.specs.Samples.{prefix_count};
ghost use Rattle.stat_plan.specs.Invariants.{IsPlan};
ghost use Rattle.stat_plan.specs.Limits.{first_over};
ghost use Rattle.stat_plan.specs.Plans.{nodes, samples};
ghost use Rattle.topology_text.specs.Grammar.{Statement, written};
ghost use Rattle.topology_text.specs.Tokens.{pieces};
ghost use Rattle.topology_text.specs.Whole.{topology_of};
ghost use Rattle.sample_text.specs.Whole.{samples_of_text};
ghost use Rattle.script_text.specs.Whole.{script_of};
ghost use Rattle.overlay_core.specs.Runs.{after, IsWhole};
ghost use Rattle.generated_job.specs.Texts.{text_of, line_of, middle_count, topology_text, samples_text, script_text};
ghost use Rattle.generated_job.specs.Written.{IsWord, IsLine, IsGoodStatement, statement_line};
ghost use Rattle.generated_job.specs.Job.{job_nodes, job_samples, job_script, job_plan};
ghost use Rattle.generated_job.specs.Laws.{OfReleases};
ghost use Rattle.generated_job.specs.Summary.{HasOneLine, HasTreeOfSamples, summary_of, summary_text};
ghost use Rattle.generated_job.specs.declared.texts.TheConstants.{SIZE_LIMIT};

/// A law: the readers read the three texts as the three parts of the plan.
pub fn texts_are_read()
    ensures topology { (n : ℕ) → 1 ≤ n → n ≤ SIZE_LIMIT → topology_of (topology_text n) ≡ Ok (job_nodes n) }
    ensures samples { (seed n : ℕ) → 1 ≤ n → n ≤ SIZE_LIMIT
        → samples_of_text (job_nodes n) (samples_text seed n) ≡ Ok (job_samples seed n) }
    ensures script { (n : ℕ) → 1 ≤ n → n ≤ SIZE_LIMIT → script_of (job_nodes n) (script_text n) ≡ Ok (job_script n) }
{}

/// A law: the samples of each wave have at most 17 distinct prefixes, and so no wave is over the limit.
pub fn waves_have_few_prefixes()
    ensures prefixes { (seed n s w : ℕ) → prefix_count (samples (job_plan seed n) s w) ≤ 17 }
    ensures within_limit { (seed n : ℕ) → first_over (job_plan seed n) ≡ None }
{}

/// A law: how many nodes, ranks and lines of samples the plan of a size has.
pub fn plans_are_so_large()
    ensures nodes { (seed n : ℕ) → nodes (job_plan seed n) ≡ 1 + middle_count n + n }
    ensures ranks { (seed n : ℕ) → sum_by size (job_plan seed n).placed ≡ 64 * n }
    ensures lines { (seed n : ℕ) → length (job_plan seed n).lines ≡ 128 * n }
{}

/// A law: after a whole journal the summary has exactly one line of each of the two streams, that of the release which
/// ends its wave.
pub fn streams_have_one_line()
    ensures { (seed n s : ℕ) → s < 2 → IsPlan (job_plan seed n)
        → OfReleases seed n (λ journal releases. IsWhole (job_plan seed n) journal → HasOneLine s releases) }
{}

/// A law: where the releases are those after a journal, each with the tree of its wave's samples over the ranks that it
/// covers, the summary is that of the journal alone.
pub fn summaries_are_of_journals()
    ensures { (seed n : ℕ) → OfReleases seed n (λ journal releases.
        AllByRecursion (HasTreeOfSamples (job_plan seed n)) releases
        → summary_text seed n journal releases ≡ summary_of seed n journal) }
{}

/// A law: what is written is read back: the statements of a topology, the lines of a text, the words of a line,
/// numbers, and ranks.
pub fn parts_are_read_back()
    ensures statements { (ss : List Statement) → AllByRecursion IsGoodStatement ss
        → map (λ p. p.1) (pieces 1 0 (text_of (map statement_line ss))) ≡ written ss }
    ensures lines { (ls : List (List ℕ)) → AllByRecursion IsLine ls → lines (text_of ls) ≡ ls }
    ensures words { (ws : List (List ℕ)) → AllByRecursion IsWord ws → words (line_of ws) ≡ ws }
    ensures numbers { (n : ℕ) → n < 2 ^ 64 → number_in (decimal n) ≡ Some n }
    ensures rank { (n : ℕ) → n < RANK_LIMIT → ranks_text (decimal n) ≡ Ok (ranks_between n n) }
    ensures ranks { (a b : ℕ) → a ≤ b → b < RANK_LIMIT
        → ranks_text (decimal a ++ 45 ∷ decimal b) ≡ Ok (ranks_between a b) }
{}
