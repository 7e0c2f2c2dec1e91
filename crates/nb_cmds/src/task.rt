//! The one table of the names that are built, and the options that queries take.
ghost use Rattle.std.specs.Prelude.{◌≡◌};
ghost use Rattle.nb_cmds.specs.Tasks.{tasks, task_name, is_named, task_of, is_minimal, takes};

use nb_edit::Verb;
use nb_words::Word;

/// What a query is about.
#[derive(Clone, Copy)]
pub enum Question {
    /// `lflow-list`, of ovn-sbctl(8).
    FlowList,
    /// `trace`, of ovn-trace(8).
    Trace,
    /// `ct-list`, modelled on `dpctl/dump-conntrack` of ovs-appctl(8).
    CtList,
    /// `ct-flush`, modelled on `dpctl/flush-conntrack` of ovs-appctl(8).
    CtFlush,
    /// `nbr-list`, modelled on the table MAC_Binding of ovn-sb(5).
    NbrList,
    /// `nbr-flush`, modelled on the table MAC_Binding of ovn-sb(5).
    NbrFlush,
    /// `dump`, which is not from OVN.
    Dump,
}

/// What a name asks for.
#[derive(Clone, Copy)]
pub enum Task {
    /// A command that edits.
    Edit(Verb),
    /// A query.
    Query(Question),
}

// The table.
static TASKS: [Task; 41] = [
    Task::Edit(Verb::LsAdd),
    Task::Edit(Verb::LsDel),
    Task::Edit(Verb::LspAdd),
    Task::Edit(Verb::LspDel),
    Task::Edit(Verb::LspSetAddresses),
    Task::Edit(Verb::LspSetPortSecurity),
    Task::Edit(Verb::LspSetType),
    Task::Edit(Verb::LspSetOptions),
    Task::Edit(Verb::LspSetEnabled),
    Task::Edit(Verb::LrAdd),
    Task::Edit(Verb::LrDel),
    Task::Edit(Verb::LrpAdd),
    Task::Edit(Verb::LrpDel),
    Task::Edit(Verb::LrpSetEnabled),
    Task::Edit(Verb::LrRouteAdd),
    Task::Edit(Verb::LrRouteDel),
    Task::Edit(Verb::LrNatAdd),
    Task::Edit(Verb::LrNatDel),
    Task::Edit(Verb::LbAdd),
    Task::Edit(Verb::LbDel),
    Task::Edit(Verb::LsLbAdd),
    Task::Edit(Verb::LsLbDel),
    Task::Edit(Verb::LrLbAdd),
    Task::Edit(Verb::LrLbDel),
    Task::Edit(Verb::AclAdd),
    Task::Edit(Verb::AclDel),
    Task::Edit(Verb::PgAdd),
    Task::Edit(Verb::PgSetPorts),
    Task::Edit(Verb::PgDel),
    Task::Edit(Verb::AsAdd),
    Task::Edit(Verb::AsSet),
    Task::Edit(Verb::AsDel),
    Task::Edit(Verb::SmbAdd),
    Task::Edit(Verb::SmbDel),
    Task::Query(Question::FlowList),
    Task::Query(Question::Trace),
    Task::Query(Question::CtList),
    Task::Query(Question::CtFlush),
    Task::Query(Question::NbrList),
    Task::Query(Question::NbrFlush),
    Task::Query(Question::Dump),
];

impl Task {
    /// All that is built.
    #[tactic(auto, unfolding(crate::specs::Tasks::tasks))]
    pub fn all() -> &'static [Task; 41]
        ensures { result.now ≡ tasks }
    {
        &TASKS
    }

    /// Its name.
    pub fn name(self) -> &'static str
        ensures { result.now ≡ task_name self }
    {
        match self {
            Task::Edit(verb) => verb.form().name,
            Task::Query(Question::FlowList) => "lflow-list",
            Task::Query(Question::Trace) => "trace",
            Task::Query(Question::CtList) => "ct-list",
            Task::Query(Question::CtFlush) => "ct-flush",
            Task::Query(Question::NbrList) => "nbr-list",
            Task::Query(Question::NbrFlush) => "nbr-flush",
            Task::Query(Question::Dump) => "dump",
        }
    }

    // Whether this is its name.
    fn is_named(self, name: &[u8]) -> bool
        ensures { result ≡ is_named self name.now }
    {
        self.name().as_bytes() == name
    }
}

/// What the name asks for (ovn-nbctl(8), ovn-sbctl(8), ovn-trace(8)), where it is built.
pub fn task_of(name: &[u8]) -> Option<Task>
    ensures { result ≡ task_of name.now }
{
    Task::all().iter().find(|task| task.is_named(name)).copied()
}

/// Whether the word is `--minimal`.
pub fn is_minimal(word: &Word) -> bool
    ensures { result ≡ is_minimal word.now }
{
    word.text.as_slice() == b"--minimal".as_slice()
}

/// Whether the query takes the option (ovn-trace(8)).
pub(crate) fn takes(question: Question, word: &Word) -> bool
    ensures { result ≡ takes question word.now }
{
    match question {
        Question::Trace => is_minimal(word),
        Question::FlowList
        | Question::CtList
        | Question::CtFlush
        | Question::NbrList
        | Question::NbrFlush
        | Question::Dump => false,
    }
}
