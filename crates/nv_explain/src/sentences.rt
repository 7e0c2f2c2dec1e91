//! The one table of what is said of refusals. docs/profile/refusals.md has it too, written from here.
//!
//! In the sentence of a code a word in capitals stands for that word of the reply, as its form names it.

/// The code of a refusal.
#[derive(Clone, Copy, PartialEq, Eq)]
pub(crate) enum Code {
    NotUtf8,
    LineTooLong,
    UnknownCommand,
    WrongWords,
    BadName,
    BadMac,
    BadAddress,
    BadNumber,
    NoSuchObject,
    Exists,
    WrongKind,
    MatchSyntax,
    MatchType,
    Duplicate,
    NotOnDatapath,
    Limit,
    BadMicroflow,
    NotInProfile,
}

/// What is said of a code.
pub(crate) struct Sentence {
    pub code: Code,
    /// The form of the reply after `refused`.
    pub form: &'static str,
    /// Exactly where it comes. Nothing where there are several causes, which are told apart.
    pub says: &'static str,
    /// The page of the profile that tells more, or none.
    pub page: &'static str,
}

/// The sentences, in the order of the codes.
pub(crate) static SENTENCES: [Sentence; 18] = [
    Sentence {
        code: Code::NotUtf8,
        form: "E01 NotUtf8",
        says: "the line is not UTF-8, and has at most 65,536 bytes",
        page: "",
    },
    Sentence {
        code: Code::LineTooLong,
        form: "E02 LineTooLong",
        says: "the line has more than 65,536 bytes, its newline not counted; the next line is run",
        page: "",
    },
    Sentence {
        code: Code::UnknownCommand,
        form: "E03 UnknownCommand W",
        says: "word W stands for a command's name, and is none that a script can use",
        page: "lines",
    },
    Sentence {
        code: Code::WrongWords,
        form: "E04 WrongWords",
        says: "",
        page: "",
    },
    Sentence {
        code: Code::BadName,
        form: "E05 BadName W",
        says: "word W may not be such a name",
        page: "",
    },
    Sentence {
        code: Code::BadMac,
        form: "E06 BadMac W",
        says: "",
        page: "",
    },
    Sentence {
        code: Code::BadAddress,
        form: "E07 BadAddress W",
        says: "",
        page: "",
    },
    Sentence {
        code: Code::BadNumber,
        form: "E08 BadNumber W",
        says: "word W is no number from 0 to 32,767, as the priority of an ACL is",
        page: "",
    },
    Sentence {
        code: Code::NoSuchObject,
        form: "E09 NoSuchObject NAME",
        says: "no object has the name NAME or, where one has it, what is to be removed of it, or detached, is not there",
        page: "",
    },
    Sentence {
        code: Code::Exists,
        form: "E10 Exists NAME",
        says: "the name NAME of a new object is taken, by any kind in its space of names",
        page: "",
    },
    Sentence {
        code: Code::WrongKind,
        form: "E11 WrongKind NAME",
        says: "the name NAME is that of another kind in its space of names, or of a load balancer of the other protocol",
        page: "",
    },
    Sentence {
        code: Code::MatchSyntax,
        form: "E12 MatchSyntax PLACE",
        says: "the match cannot be read further than byte PLACE of it, counted from 0",
        page: "matches",
    },
    Sentence {
        code: Code::MatchType,
        form: "E13 MatchType RULE PLACE",
        says: "the match breaks the rule RULE at the field at byte PLACE of it",
        page: "matches",
    },
    Sentence {
        code: Code::Duplicate,
        form: "E14 Duplicate NUMBER",
        says: "object NUMBER says the same",
        page: "",
    },
    Sentence {
        code: Code::NotOnDatapath,
        form: "E15 NotOnDatapath NAME",
        says: "the traced port NAME is on another datapath",
        page: "",
    },
    Sentence {
        code: Code::Limit,
        form: "E16 Limit KIND BOUND",
        says: "after the command there would be more of KIND than BOUND",
        page: "database",
    },
    Sentence {
        code: Code::BadMicroflow,
        form: "E17 BadMicroflow RULE",
        says: "the match of `trace` is no microflow by the rule RULE",
        page: "microflows",
    },
    Sentence {
        code: Code::NotInProfile,
        form: "E18 NotInProfile W",
        says: "OVN takes word W or such a word, and this profile does not",
        page: "",
    },
];

/// Why the words of a line are wrong.
#[derive(Clone, Copy)]
pub(crate) enum Cause {
    OpenQuote,
    NoCommand,
    Options,
    TooFew,
    TooMany,
    Keyword,
    QueryBeside,
}

/// What is said of each cause of `E04`. W is the word that shows it.
pub(crate) static CAUSES: [&str; 7] = [
    "a quote is left open",
    "a command has no name",
    "an option stands twice, or has another value",
    "there are too few words",
    "there are too many words",
    "word W stands for a keyword, and is none that may stand there",
    "a query stands beside another command",
];

/// What is said of each rule of `E13`, by its name, and of `E17`.
pub(crate) static RULES: [(&str, &str); 7] = [
    ("UnknownField", "no field and no predicate has this name"),
    (
        "NotAllowedHere",
        "the field may not stand in such a match: an ACL or a microflow takes no registers, no `flags.loopback` and nothing of connections, an ACL no `quote` fields, and `outport` stands in ACLs with `to-lport` alone",
    ),
    (
        "WrongWidth",
        "a bit, a range of bits, a number, a mask or the length of a prefix does not fit the field",
    ),
    (
        "WrongForm",
        "the field does not take such a constant, relation or range of bits, or stands alone and has more than one bit",
    ),
    (
        "NotConjunction",
        "it is no conjunction of equalities of fields and predicates such as ip4, joined by &&",
    ),
    (
        "Contradiction",
        "two of its parts give this field two numbers; a predicate such as ip4 gives one too",
    ),
    (
        "NoInport",
        "it does not say by which port the packet comes in, as inport == \"PORT\"",
    ),
];

/// What may stand at a place of a match.
#[derive(Clone, Copy)]
pub(crate) enum Wanted {
    Operand,
    Constant,
    Bit,
    BitEnd,
    ItemEnd,
    Continuation,
    Parentheses,
    FewerLevels,
}

/// What is said of what may stand there, for `E12`.
pub(crate) static WANTED: [&str; 8] = [
    "a field such as tcp.dst, a predicate such as ip4, `!`, `(`, 0 or 1",
    "a constant: a number, a MAC, an IPv4 address with or without a length or a mask, the name of a port in double quotes, $SET, @GROUP, or several of these in braces",
    "the number of a bit, at most 255",
    "`]` or, after the number of a bit, `..`",
    "`,` or `}`, or `/` after a constant",
    "`&&`, `||`, `)` or the end of the match or, after a field, `[` or a relation: ==, !=, <, <=, > or >=",
    "parentheses: && and || do not stand side by side without them",
    "fewer levels: parentheses and ! open 64 at most",
];

/// The words that stand at the places of a command, in the order of `nb_edit::Place`, and what they are.
pub(crate) static PLACES: [(&str, &str); 28] = [
    ("SWITCH", "the name of a switch"),
    ("ROUTER", "the name of a router"),
    ("PORT", "the name of a port"),
    ("LB", "the name of a load balancer"),
    ("GROUP", "the name of a port group"),
    ("SET", "the name of an address set"),
    ("OWNER", "the name of a switch or of a port group"),
    (
        "ADDRESS",
        "`unknown`, `router`, or a MAC and its IPv4 addresses as one word, in quotes",
    ),
    (
        "GUARD",
        "a MAC and its IPv4 addresses or networks as one word, in quotes",
    ),
    ("TYPE", "'' or `router`"),
    ("OPTION", "`router-port=` and the name of a router port"),
    ("STATE", "`enabled` or `disabled`"),
    ("MAC", "a MAC, as 00:00:00:00:00:01"),
    ("IP", "an IPv4 address, as 10.0.0.1"),
    (
        "NETWORK",
        "the address of a router port with the length of its network, as 10.0.0.1/24",
    ),
    ("PREFIX", "an IPv4 network, as 10.0.0.0/24"),
    ("NEXTHOP", "the IPv4 address of the next router"),
    ("TYPE", "`snat`, `dnat` or `dnat_and_snat`"),
    (
        "LOGICAL",
        "an IPv4 address or, of a rule of type `snat`, a network",
    ),
    ("WORD", "a word of distributed NAT, which is not taken here"),
    ("VIP", "an IPv4 address, or one and a port, as 10.0.0.1:80"),
    (
        "BACKENDS",
        "IPv4 addresses, each with a port where the VIP has one, with commas between",
    ),
    ("PROTOCOL", "`tcp` or `udp`"),
    ("DIRECTION", "`from-lport` or `to-lport`"),
    ("PRIORITY", "a number from 0 to 32,767"),
    ("MATCH", "a match as one word, in quotes"),
    (
        "VERDICT",
        "`allow`, `allow-related`, `allow-stateless`, `drop` or `reject`",
    ),
    ("MEMBER", "a MAC, an IPv4 address or a network"),
];

/// The forms of queries, in the order of `nb_cmds::Question`.
pub(crate) static QUERIES: [&str; 7] = [
    "lflow-list [DATAPATH]",
    "[--minimal] trace DATAPATH MICROFLOW",
    "ct-list",
    "ct-flush",
    "nbr-list",
    "nbr-flush",
    "dump",
];

/// What the datapath of a query is.
pub(crate) static DATAPATH: &str = "DATAPATH, the name of a switch or of a router";

/// What a name of an object is.
pub(crate) static OBJECT_NAME: &str =
    "1 to 127 printable ASCII characters without space, quotes and backslash, that begin neither with `-` nor with `_MC_`";

/// What a name of a set or a group is.
pub(crate) static SET_NAME: &str =
    "1 to 127 letters, digits, `_` and `.`, that begin with no digit";

/// What is bounded, in the order of `nb_records::Kind`.
pub(crate) static KINDS: [(&str, &str); 20] = [
    ("switch", "switches"),
    ("router", "routers"),
    ("port", "ports of switches"),
    ("router-port", "ports of routers"),
    ("network", "networks of router ports"),
    ("address", "MACs and addresses of switch ports"),
    ("security", "MACs and networks of port security"),
    ("acl", "ACLs"),
    (
        "acl-switch",
        "ACLs, each once for each switch that it applies to",
    ),
    ("route", "static routes"),
    ("nat", "NAT rules"),
    ("lb", "load balancers"),
    ("vip", "VIPs of one load balancer"),
    ("backend", "backends of one VIP"),
    (
        "vip-datapath",
        "VIPs, each once for each datapath that has its load balancer",
    ),
    (
        "neighbour",
        "neighbours that a router port knows from the network",
    ),
    ("set", "address sets and port groups"),
    ("member", "members of address sets and of port groups"),
    (
        "match-text",
        "bytes of the matches of ACLs, each once for each switch that it applies to",
    ),
    ("binding", "static MAC bindings"),
];

/// A slip that people make.
#[derive(Clone, Copy)]
pub(crate) enum Slip {
    Comment,
    LateOption,
    UnquotedList,
    PrefixInList,
    MacSigns,
    UnquotedMatch,
    UnquotedName,
    Equals,
    WordOperator,
    Icmp,
    LongPrefix,
    Deny,
    Accept,
    Ingress,
    Egress,
    ShowCommand,
    PortForDatapath,
    MayExist,
    IfExists,
    Ipv6,
    Comma,
    Capitals,
    AclOption,
    LogicalFirst,
    BackendWords,
}

/// What a slip looks like, and the hint.
pub(crate) static SLIPS: [(&str, &str); 25] = [
    (
        "`ls-add sw0 # the first one`",
        "a comment stands on a line of its own: after other words `#` begins a word",
    ),
    (
        "`ls-add --may-exist sw0`",
        "options stand before the name of the command, as --may-exist ls-add sw0",
    ),
    (
        "`lsp-set-addresses p1 00:00:00:00:00:01 10.0.0.1`",
        "put a MAC and its addresses into quotes, as one word: '00:00:00:00:00:01 10.0.0.1'",
    ),
    (
        "`lsp-set-addresses p1 '00:00:00:00:00:01 10.0.0.1/24'`",
        "the addresses of a port have no length: write 10.0.0.1; networks stand in lsp-set-port-security",
    ),
    (
        "`lsp-set-addresses p1 00-00-00-00-00-01`",
        "a MAC is six pairs of hexadecimal digits with colons between, as 00:00:00:00:00:01",
    ),
    (
        "`acl-add sw0 to-lport 1 ip4 && tcp drop`",
        "a match is one word: put it into single quotes, as 'ip4 && tcp'",
    ),
    (
        "`acl-add sw0 from-lport 1 'inport == p1' drop`",
        "the name of a port stands in double quotes and the whole match in single ones, as 'inport == \"p1\"'",
    ),
    (
        "`acl-add sw0 to-lport 1 'tcp.dst = 80' drop`",
        "equality is written ==",
    ),
    (
        "`acl-add sw0 to-lport 1 'ip4 and tcp' drop`",
        "matches are joined by && and ||, and negated by !",
    ),
    (
        "`trace sw0 'inport == \"p1\" && icmp'`",
        "write icmp4, and icmp4.type and icmp4.code for its fields",
    ),
    (
        "`acl-add sw0 to-lport 1 'ip4.src == 10.0.0.0/33' drop`",
        "the length of an IPv4 prefix is 0 to 32",
    ),
    (
        "`acl-add sw0 to-lport 1 ip4 deny`",
        "write drop, or reject where the sender is to be told",
    ),
    ("`acl-add sw0 to-lport 1 ip4 accept`", "write allow"),
    (
        "`acl-add sw0 ingress 1 ip4 drop`",
        "write from-lport: the ACLs of packets that come from ports, in the ingress pipeline",
    ),
    (
        "`acl-add sw0 egress 1 ip4 drop`",
        "write to-lport: the ACLs of packets that go to ports, in the egress pipeline",
    ),
    (
        "`show`",
        "the network is shown by ./ovn-nd --show FILE, and written as a script by dump",
    ),
    (
        "`trace p1 'inport == \"p1\"'`",
        "this is the name of a port: a query names the datapath, which is the switch or the router that has it",
    ),
    (
        "`ls-add sw0` a second time",
        "with --may-exist before the command it is no refusal that the object is there",
    ),
    (
        "`ls-del sw0` a second time",
        "with --if-exists before the command it is no refusal that the object is not there",
    ),
    (
        "`lsp-set-addresses p1 '00:00:00:00:00:01 fe80::1'`",
        "addresses of IPv6 are not in this profile",
    ),
    (
        "`as-add blocked 10.0.0.1, 10.0.0.2`",
        "members and addresses stand with spaces between, and no commas",
    ),
    (
        "`acl-add sw0 to-lport 1 ip4 DROP`",
        "keywords are written in small letters, as drop and to-lport",
    ),
    (
        "`--log acl-add sw0 to-lport 1 ip4 drop`",
        "an ACL is a direction, a priority, a match and a verdict here: it has no name, log, meter, label and tier",
    ),
    (
        "`lr-nat-add r0 snat 10.0.0.0/24 20.0.0.1`",
        "the external address, which has no length, stands before the logical one, as lr-nat-add r0 snat 20.0.0.1 10.0.0.0/24",
    ),
    (
        "`lb-add lb0 10.0.0.9:80 10.0.0.1:80, 10.0.0.2:80`",
        "backends are one word, with commas and no spaces between, as 10.0.0.1:80,10.0.0.2:80",
    ),
];
