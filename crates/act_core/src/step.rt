use expr_core::{Bits, Const};
use nv_base::{Field, Ip4, Items, Name};

/// Where a load balancer sends packets.
#[derive(Clone, Copy, PartialEq, Eq)]
pub struct Target {
    /// The address.
    pub addr: Ip4,
    /// The port, if it has one.
    pub port: Option<u16>,
}

/// An action without a block (ovn-sb(5), 'Logical_Flow TABLE', actions).
#[derive(PartialEq, Eq, Drop)]
pub enum Step {
    /// `next;`
    Next,
    /// `next(pipeline=ingress, table=N);` or `next(pipeline=egress, table=N);`
    Jump {
        /// Whether the pipeline is egress.
        egress: bool,
        /// The table.
        table: u8,
    },
    /// `output;`
    Output,
    /// `drop;`
    Drop,
    /// `P = C;`: a part of a field becomes a constant.
    Set(Field, Bits, Const),
    /// `P = F;`: a part of a field becomes the other field.
    Copy(Field, Bits, Field),
    /// `outport = "name";`
    SetOutport(Name),
    /// `F <-> G;`
    Exchange(Field, Field),
    /// `ip.ttl--;`
    DecTtl,
    /// `ct_next;`
    CtNext,
    /// `ct_lb;`
    CtLb,
    /// `ct_lb(backends=A:P,B:Q);`, also without ports.
    CtLbTo(Items<Target>),
    /// `ct_commit { ct_mark.blocked = 0; };`, or the same with 1.
    CtCommit {
        /// Whether the connection is blocked.
        blocked: bool,
    },
    /// `ct_snat;`
    CtSnat,
    /// `ct_snat(A);`
    CtSnatTo(Ip4),
    /// `ct_dnat;`
    CtDnat,
    /// `ct_dnat(A);`
    CtDnatTo(Ip4),
    /// `put_arp(inport, arp.spa, arp.sha);`
    PutArp,
    /// `get_arp(outport, reg0);`
    GetArp,
}
