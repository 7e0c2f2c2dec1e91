//! The commands, and the one table of their forms.
ghost use Rattle.std.specs.Prelude.{◌≡◌};
ghost use Rattle.nb_edit.specs.Forms.{form, verbs, is_named, verb_of};

use crate::form::{Flag, Place, Tail};
use Flag::{IfExists, MayExist, OwnerType, Policy};
use Place::{
    Address, Backends, Direction, Distributed, Group, Guard, Ip, Lb, Logical, Mac, Match, Member,
    NatType, Network, Nexthop, Owner, Port, PortOption, PortType, Prefix, Priority, Protocol,
    Router, Set, State, Switch, Verdict, Vip,
};
use Tail::{Ends, May, MayThen, MayThenBoth, Repeats};

/// A command that edits the network, by its name.
#[derive(Clone, Copy)]
pub enum Verb {
    /// `ls-add`
    LsAdd,
    /// `lr-add`
    LrAdd,
    /// `ls-del`
    LsDel,
    /// `lr-del`
    LrDel,
    /// `lsp-add`
    LspAdd,
    /// `lsp-del`
    LspDel,
    /// `lsp-set-addresses`
    LspSetAddresses,
    /// `lsp-set-port-security`
    LspSetPortSecurity,
    /// `lsp-set-type`
    LspSetType,
    /// `lsp-set-options`
    LspSetOptions,
    /// `lsp-set-enabled`
    LspSetEnabled,
    /// `lrp-set-enabled`
    LrpSetEnabled,
    /// `lrp-add`
    LrpAdd,
    /// `lrp-del`
    LrpDel,
    /// `lr-route-add`
    LrRouteAdd,
    /// `lr-route-del`
    LrRouteDel,
    /// `lr-nat-add`
    LrNatAdd,
    /// `lr-nat-del`
    LrNatDel,
    /// `lb-add`
    LbAdd,
    /// `lb-del`
    LbDel,
    /// `ls-lb-add`
    LsLbAdd,
    /// `lr-lb-add`
    LrLbAdd,
    /// `ls-lb-del`
    LsLbDel,
    /// `lr-lb-del`
    LrLbDel,
    /// `acl-add`
    AclAdd,
    /// `acl-del`
    AclDel,
    /// `pg-add`
    PgAdd,
    /// `pg-set-ports`
    PgSetPorts,
    /// `pg-del`
    PgDel,
    /// `as-add`
    AsAdd,
    /// `as-set`
    AsSet,
    /// `as-del`
    AsDel,
    /// `smb-add`
    SmbAdd,
    /// `smb-del`
    SmbDel,
}

/// The form of a command.
#[derive(Clone, Copy)]
pub struct Form {
    /// Its name.
    pub name: &'static str,
    /// The options that it takes.
    pub flags: &'static [Flag],
    /// The words that it needs.
    pub places: &'static [Place],
    /// Those that may follow.
    pub tail: Tail,
}

// All the commands.
static VERBS: [Verb; 34] = [
    Verb::LsAdd,
    Verb::LrAdd,
    Verb::LsDel,
    Verb::LrDel,
    Verb::LspAdd,
    Verb::LspDel,
    Verb::LspSetAddresses,
    Verb::LspSetPortSecurity,
    Verb::LspSetType,
    Verb::LspSetOptions,
    Verb::LspSetEnabled,
    Verb::LrpSetEnabled,
    Verb::LrpAdd,
    Verb::LrpDel,
    Verb::LrRouteAdd,
    Verb::LrRouteDel,
    Verb::LrNatAdd,
    Verb::LrNatDel,
    Verb::LbAdd,
    Verb::LbDel,
    Verb::LsLbAdd,
    Verb::LrLbAdd,
    Verb::LsLbDel,
    Verb::LrLbDel,
    Verb::AclAdd,
    Verb::AclDel,
    Verb::PgAdd,
    Verb::PgSetPorts,
    Verb::PgDel,
    Verb::AsAdd,
    Verb::AsSet,
    Verb::AsDel,
    Verb::SmbAdd,
    Verb::SmbDel,
];

// The table of the forms, in the order of the commands: the name of each, the options that it takes, the words that it needs,
// and those that may follow.
static FORMS: [(&str, &[Flag], &[Place], Tail); 34] = [
    ("ls-add", &[MayExist], &[Switch], Ends),
    ("lr-add", &[MayExist], &[Router], Ends),
    ("ls-del", &[IfExists], &[Switch], Ends),
    ("lr-del", &[IfExists], &[Router], Ends),
    ("lsp-add", &[MayExist], &[Switch, Port], Ends),
    ("lsp-del", &[IfExists], &[Port], Ends),
    ("lsp-set-addresses", &[], &[Port], Repeats(Address)),
    ("lsp-set-port-security", &[], &[Port], Repeats(Guard)),
    ("lsp-set-type", &[], &[Port, PortType], Ends),
    ("lsp-set-options", &[], &[Port], Repeats(PortOption)),
    ("lsp-set-enabled", &[], &[Port, State], Ends),
    ("lrp-set-enabled", &[], &[Port, State], Ends),
    (
        "lrp-add",
        &[MayExist],
        &[Router, Port, Mac, Network],
        Repeats(Network),
    ),
    ("lrp-del", &[IfExists], &[Port], Ends),
    (
        "lr-route-add",
        &[Policy],
        &[Router, Prefix, Nexthop],
        May(Port),
    ),
    ("lr-route-del", &[IfExists, Policy], &[Router], May(Prefix)),
    (
        "lr-nat-add",
        &[],
        &[Router, NatType, Ip, Logical],
        MayThen(Distributed, Distributed),
    ),
    (
        "lr-nat-del",
        &[IfExists],
        &[Router],
        MayThen(NatType, Logical),
    ),
    ("lb-add", &[], &[Lb, Vip, Backends], May(Protocol)),
    ("lb-del", &[IfExists], &[Lb], May(Vip)),
    ("ls-lb-add", &[MayExist], &[Switch, Lb], Ends),
    ("lr-lb-add", &[MayExist], &[Router, Lb], Ends),
    ("ls-lb-del", &[IfExists], &[Switch], May(Lb)),
    ("lr-lb-del", &[IfExists], &[Router], May(Lb)),
    (
        "acl-add",
        &[MayExist, OwnerType],
        &[Owner, Direction, Priority, Match, Verdict],
        Ends,
    ),
    (
        "acl-del",
        &[OwnerType],
        &[Owner],
        MayThenBoth(Direction, Priority, Match),
    ),
    ("pg-add", &[], &[Group], Repeats(Port)),
    ("pg-set-ports", &[], &[Group], Repeats(Port)),
    ("pg-del", &[IfExists], &[Group], Ends),
    ("as-add", &[], &[Set], Repeats(Member)),
    ("as-set", &[], &[Set], Repeats(Member)),
    ("as-del", &[IfExists], &[Set], Ends),
    ("smb-add", &[], &[Port, Ip, Mac], Ends),
    ("smb-del", &[IfExists], &[Port, Ip], Ends),
];

impl Verb {
    /// All the commands.
    #[tactic(auto, unfolding(crate::specs::Forms::verbs))]
    pub fn all() -> &'static [Verb; 34]
        ensures { result.now ≡ verbs }
    {
        &VERBS
    }

    /// The form of the command.
    pub fn form(self) -> Form
        ensures name { result.name.now ≡ (form self).name }
        ensures flags { result.flags.now ≡ (form self).flags }
        ensures places { result.places.now ≡ (form self).places }
        ensures tail { result.tail ≡ (form self).tail }
    {
        let row = FORMS[self as usize];
        let (name, flags, places, tail) = row;
        Form {
            name,
            flags,
            places,
            tail,
        }
    }

    // Whether this is its name.
    fn is_named(self, name: &[u8]) -> bool
        ensures { result ≡ is_named self name.now }
    {
        self.form().name.as_bytes() == name
    }
}

/// The command of that name.
pub fn verb_of(name: &[u8]) -> Option<Verb>
    ensures { result ≡ verb_of name.now }
{
    Verb::all().iter().find(|verb| verb.is_named(name)).copied()
}
