// The grid checker: what its calls answer. specs/Numbers.antt gives the paper's number and values for each case.
#![tactic(auto)]

// "A and B are the place", 0 where none is named.
#[derive(Clone, Copy)]
pub struct Place {
    pub a: u32,
    pub b: u32,
}

// The rules of a model's rows, in the order in which they are tried.
#[derive(Clone, Copy)]
pub enum RowRule {
    // 5 "thread row A: a least above its most, or least period 0 with most above 0"
    Thread,
    // 52 "thread A with i above 1 and unequal period ends, or a moved release above 65535" (02)
    Period,
    // 6 "activity row A: thread ≥ n, least duration 0, or least above most"
    Activity,
    // 53 "activity A whose q is m or more but not 255" (02)
    Loop,
    // 57 "for a width of 0 or above c, A the activity" (02)
    Width,
    // 7 "row A: a bit at or above its own number in either mask"
    Masks,
}

// Refusals 1 to 14, 51 to 53 and 57, "From the input", in the order in which they are tried.
#[derive(Clone, Copy)]
pub enum FormRefusal {
    // 1 "model under 10 bytes, or its length differs from the bytes given"
    ModelSize,
    // 2 "model version"
    ModelVersion,
    // 3 "c, n, m or H outside its limits"
    ModelLimits,
    // 4 "model length differs from its formula"
    ModelFormula,
    // 51 "i outside 1..4, i times n above 8 or i times m above 32" (02)
    Rounds,
    // 5, 52, 6, 53, 57 and 7
    ModelRow(RowRule),
    // 8 "second record under 7 bytes (choice) or 9 (plan), or length differs from the bytes given"
    SecondSize,
    // 9 "its version"
    SecondVersion,
    // 10 "its n or m, or a plan's H, differs from the model's"
    SecondCounts,
    // 11 "its length differs from its formula"
    SecondFormula,
    // 12 "thread A: release or period outside the model's range"
    ThreadChoice,
    // 13 "choice only, activity A: duration outside its range"
    DurationChoice,
    // 14 "plan only, tick A: a bit at or above m"
    WordBits,
}

// The rules of "The checks" that are tried at activities: A is an activity. 24 is out of the book (02).
#[derive(Clone, Copy)]
pub enum ActivityRule {
    // 21 "window: start < end ≤ H, bits set at start and end − 1, none outside"
    Window,
    // 22 "count within the duration range"
    Count,
    // 23 "a thread with a period" has "end ≤ release + period" (02)
    Deadline,
    // 25 "start ≥ end + delay of each temporal predecessor B"
    Temporal,
    // 26 "start ≥ end of each data predecessor B"
    Data,
    // 27 "start ≥ efe"
    Eligible,
}

// Those that are tried at ticks: A is a tick. "The ones in a word become the sum of active widths in 28 to 31", and not every
// waiting B counts (02).
#[derive(Clone, Copy)]
pub enum TickRule {
    // 28 "at most c ones in the word"
    Cores,
    // 29 "with exactly c ones, no waiting B has a priority above an active one's"
    Preemption,
    // 30 "with fewer than c ones, nothing waits"
    Idle,
    // 31 "with exactly c ones, no waiting B has the priority of an active activity with a larger number"
    Tie,
}

// Refusals 21 to 31: the rule that is broken.
#[derive(Clone, Copy)]
pub enum RuleRefusal {
    Activity(ActivityRule),
    Tick(TickRule),
}

// Refusals 41 to 43, "From the state of the buffer or run", and 50, of a lent list.
#[derive(Clone, Copy)]
pub enum RunRefusal {
    // 41 "buffer shorter than the plan; A is the length needed"
    Room,
    // 42 "something owed after tick H − 1; A the lowest such activity"
    Owed,
    // 43 "all ended, an end breaks rule 23; A the lowest"
    Late,
    // 50 "for a list under 32 rows"
    Rows,
}

// "A refusal answers its number, A and B"
#[derive(Clone, Copy)]
pub enum Refusal {
    Form(FormRefusal, Place),
    Rule(RuleRefusal, Place),
    Run(RunRefusal, Place),
}

// The same in the paper's numbers.
#[derive(Clone, Copy)]
pub struct Numbered {
    pub number: u32,
    pub a: u32,
    pub b: u32,
}

// "A pass answers usage (all ones), c times H, makespan": usage "in core ticks" (02).
#[derive(Clone, Copy)]
pub struct Figures {
    pub usage: u32,
    pub capacity: u32,
    pub makespan: u32,
}

// What a check answers: the figures, or why it refuses.
pub type Verdict = Result<Figures, Refusal>;

// "It answers the length, usage, c times H, and makespan"
#[derive(Clone, Copy)]
pub struct Written {
    pub length: u32,
    pub figures: Figures,
}

// What the run answers, and the report of lateness.
pub type RunVerdict = Result<Written, Refusal>;

// Refusals 54 to 56, of wrapped records (02).
#[derive(Clone, Copy)]
pub enum WrapRefusal {
    // 54 "for an empty file, or a wrapper whose length .., version or flag is wrong or whose model is refused"
    Wrapper,
    // 55 "for two series"
    Series,
    // 56 "for equal series, issue and flag with other bytes"
    Copy,
}

// Why wrapped records are refused, and A, the record tried, from 0.
#[derive(Clone, Copy)]
pub struct WrapRefused {
    pub why: WrapRefusal,
    pub index: usize,
}

// One of two wrapped records.
#[derive(Clone, Copy)]
pub enum Side {
    First,
    Second,
}

// Which of two wrapped records stands.
pub type Standing = Result<Side, WrapRefused>;

// A record as a part of the caller's bytes: its number, from 0, where its first byte stands, and how many bytes it has.
#[derive(Clone, Copy)]
pub struct Part {
    pub index: usize,
    pub offset: usize,
    pub length: usize,
}

// Which record of a file is chosen, and where it lies.
pub type Chosen = Result<Part, WrapRefused>;
