//! Why a line is refused.
ghost use Rattle.std.specs.Prelude.{◌≡◌, ◌++◌, decimal, take, vec_len, OnOk, OnErr};
ghost use Rattle.nb_records.specs.Refusal.{
  kind_name,
  match_rule_name,
  micro_rule_text,
  refusal_label,
  refusal_subject,
  refusal_line,
  spaced,
};

use nv_base::{Field, Name, ObjId, OutOfMemory, put_dec};

/// What is bounded, in the order in which bounds are tested.
#[derive(Clone, Copy)]
pub enum Kind {
    /// Switches.
    Switch,
    /// Routers.
    Router,
    /// Ports of switches.
    Port,
    /// Ports of routers.
    RouterPort,
    /// Networks of router ports.
    Network,
    /// MACs and addresses of switch ports.
    Address,
    /// MACs and networks of port security.
    Security,
    /// ACLs.
    Acl,
    /// ACLs, each once for each switch that it applies to.
    AclSwitch,
    /// Static routes.
    Route,
    /// NAT rules.
    Nat,
    /// Load balancers.
    Lb,
    /// VIPs of one load balancer.
    Vip,
    /// Backends of one VIP.
    Backend,
    /// VIPs, each once for each datapath that has its load balancer.
    VipDatapath,
    /// Neighbours that router ports know from the network.
    Neighbour,
    /// Address sets and port groups.
    Set,
    /// Members of address sets and of port groups.
    Member,
    /// Bytes of the matches of ACLs, each once for each switch that it applies to.
    MatchText,
    /// Static MAC bindings.
    Binding,
}

/// The rule that a match breaks for its role.
#[derive(Clone, Copy)]
pub enum MatchRule {
    UnknownField,
    NotAllowedHere,
    WrongWidth,
    WrongForm,
}

/// Why a match is no microflow.
#[derive(Clone, Copy)]
pub enum MicroRule {
    NotConjunction,
    /// The first field that is given two values.
    Contradiction(Field),
    NoInport,
}

/// Why a line is refused. A word is given by its number in the line, from 1; a place is the offset of a byte in the match.
#[derive(Drop)]
pub enum Refusal {
    /// The line is not UTF-8.
    NotUtf8,
    /// The line has more than 65,536 bytes.
    LineTooLong,
    /// The word stands for a command and is none.
    UnknownCommand(u32),
    /// An open quote, no command, too few or too many words, a keyword that is none, or a query beside another command.
    WrongWords,
    /// The word is no name.
    BadName(u32),
    /// The word has a bad MAC, or one that is zero or multicast.
    BadMac(u32),
    /// The word has a bad address, or repeats one.
    BadAddress(u32),
    /// The word is no number in its range.
    BadNumber(u32),
    /// No object has the name.
    NoSuchObject(Name),
    /// The name is taken.
    Exists(Name),
    /// The name is of another kind, or the protocol differs.
    WrongKind(Name),
    /// The match is none from this place on.
    MatchSyntax(u32),
    /// The match breaks the rule at this place.
    MatchType(MatchRule, u32),
    /// The object of that number is the same.
    Duplicate(ObjId),
    /// The port is on another datapath.
    NotOnDatapath(Name),
    /// There would be more of the kind than its bound.
    Limit(Kind, u32),
    /// The match is no microflow.
    BadMicroflow(MicroRule),
    /// The word is known to OVN and not taken here.
    NotInProfile(u32),
}

impl Kind {
    /// The kind's name in a refusal (not from OVN).
    #[tactic(auto, unfolding(crate::specs::Refusal::kind_name))]
    pub fn name(self) -> &'static str
        ensures { result.now ≡ kind_name self }
    {
        match self {
            Kind::Switch => "switch",
            Kind::Router => "router",
            Kind::Port => "port",
            Kind::RouterPort => "router-port",
            Kind::Network => "network",
            Kind::Address => "address",
            Kind::Security => "security",
            Kind::Acl => "acl",
            Kind::AclSwitch => "acl-switch",
            Kind::Route => "route",
            Kind::Nat => "nat",
            Kind::Lb => "lb",
            Kind::Vip => "vip",
            Kind::Backend => "backend",
            Kind::VipDatapath => "vip-datapath",
            Kind::Neighbour => "neighbour",
            Kind::Set => "set",
            Kind::Member => "member",
            Kind::MatchText => "match-text",
            Kind::Binding => "binding",
        }
    }
}

impl MatchRule {
    /// The rule's name in a refusal (not from OVN).
    pub fn name(self) -> &'static str
        ensures { result.now ≡ match_rule_name self }
    {
        match self {
            MatchRule::UnknownField => "UnknownField",
            MatchRule::NotAllowedHere => "NotAllowedHere",
            MatchRule::WrongWidth => "WrongWidth",
            MatchRule::WrongForm => "WrongForm",
        }
    }
}

impl Refusal {
    /// The code and the name of the refusal (not from OVN).
    #[tactic(auto, unfolding(crate::specs::Refusal::refusal_label))]
    pub fn label(&self) -> &'static str
        ensures { result.now ≡ refusal_label self.now }
    {
        match self {
            Refusal::NotUtf8 => "E01 NotUtf8",
            Refusal::LineTooLong => "E02 LineTooLong",
            Refusal::UnknownCommand(_) => "E03 UnknownCommand",
            Refusal::WrongWords => "E04 WrongWords",
            Refusal::BadName(_) => "E05 BadName",
            Refusal::BadMac(_) => "E06 BadMac",
            Refusal::BadAddress(_) => "E07 BadAddress",
            Refusal::BadNumber(_) => "E08 BadNumber",
            Refusal::NoSuchObject(_) => "E09 NoSuchObject",
            Refusal::Exists(_) => "E10 Exists",
            Refusal::WrongKind(_) => "E11 WrongKind",
            Refusal::MatchSyntax(_) => "E12 MatchSyntax",
            Refusal::MatchType(..) => "E13 MatchType",
            Refusal::Duplicate(_) => "E14 Duplicate",
            Refusal::NotOnDatapath(_) => "E15 NotOnDatapath",
            Refusal::Limit(..) => "E16 Limit",
            Refusal::BadMicroflow(_) => "E17 BadMicroflow",
            Refusal::NotInProfile(_) => "E18 NotInProfile",
        }
    }

    /// Writes the line that tells the refusal (not from OVN): `refused`, its code and name, and what it is about. After
    /// `OutOfMemory` what was there is still in front.
    pub fn put_line(&self, out: &mut Vec<u8>) -> Result<(), OutOfMemory>
        ensures ok { OnOk result (out.new.items ≡ out.old.items ++ refusal_line self.now) }
        ensures err { OnErr result (take (vec_len out.old) out.new.items ≡ out.old.items) }
    {
        out.extend_from_slice(b"refused ")?;
        out.extend_from_slice(self.label().as_bytes())?;
        put_subject(out, self)?;
        out.push(b'\n')?;
        Ok(())
    }
}

// What a refusal is about, after a space.
fn put_subject(out: &mut Vec<u8>, refusal: &Refusal) -> Result<(), OutOfMemory>
    ensures ok { OnOk result (out.new.items ≡ out.old.items ++ refusal_subject refusal.now) }
    ensures err { OnErr result (take (vec_len out.old) out.new.items ≡ out.old.items) }
{
    match refusal {
        Refusal::NotUtf8 | Refusal::LineTooLong | Refusal::WrongWords => Ok(()),
        Refusal::UnknownCommand(number)
        | Refusal::BadName(number)
        | Refusal::BadMac(number)
        | Refusal::BadAddress(number)
        | Refusal::BadNumber(number)
        | Refusal::MatchSyntax(number)
        | Refusal::NotInProfile(number) => put_number(out, *number),
        Refusal::Duplicate(object) => put_number(out, object.0),
        Refusal::NoSuchObject(name)
        | Refusal::Exists(name)
        | Refusal::WrongKind(name)
        | Refusal::NotOnDatapath(name) => put_word(out, name.as_slice()),
        Refusal::MatchType(rule, place) => put_word_and_number(out, rule.name(), *place),
        Refusal::Limit(kind, bound) => put_word_and_number(out, kind.name(), *bound),
        Refusal::BadMicroflow(rule) => put_micro_rule(out, *rule),
    }
}

fn put_word(out: &mut Vec<u8>, word: &[u8]) -> Result<(), OutOfMemory>
    ensures ok { OnOk result (out.new.items ≡ out.old.items ++ spaced word.now) }
    ensures err { OnErr result (take (vec_len out.old) out.new.items ≡ out.old.items) }
{
    out.push(b' ')?;
    out.extend_from_slice(word)?;
    Ok(())
}

fn put_number(out: &mut Vec<u8>, number: u32) -> Result<(), OutOfMemory>
    ensures ok { OnOk result (out.new.items ≡ out.old.items ++ spaced (decimal number)) }
    ensures err { OnErr result (take (vec_len out.old) out.new.items ≡ out.old.items) }
{
    out.push(b' ')?;
    put_dec(out, u128::from(number))?;
    Ok(())
}

fn put_word_and_number(out: &mut Vec<u8>, word: &str, number: u32) -> Result<(), OutOfMemory>
    ensures ok { OnOk result (out.new.items ≡ out.old.items ++ (spaced word.now ++ spaced (decimal number))) }
    ensures err { OnErr result (take (vec_len out.old) out.new.items ≡ out.old.items) }
{
    put_word(out, word.as_bytes())?;
    put_number(out, number)
}

fn put_micro_rule(out: &mut Vec<u8>, rule: MicroRule) -> Result<(), OutOfMemory>
    ensures ok { OnOk result (out.new.items ≡ out.old.items ++ micro_rule_text rule) }
    ensures err { OnErr result (take (vec_len out.old) out.new.items ≡ out.old.items) }
{
    match rule {
        MicroRule::NotConjunction => put_word(out, b"NotConjunction"),
        MicroRule::Contradiction(field) => {
            put_word(out, b"Contradiction")?;
            put_word(out, field.name().as_bytes())
        }
        MicroRule::NoInport => put_word(out, b"NoInport"),
    }
}
