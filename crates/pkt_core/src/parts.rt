//! Which fields a packet has, and the packet without the others.
ghost use Rattle.std.specs.Prelude.{◌≡◌};
ghost use Rattle.nv_base.specs.Field.{is_header};
ghost use Rattle.pkt_core.specs.Packet.{value, value_only, headers, is_working, workings};
ghost use Rattle.pkt_core.specs.Prerequisite.{is_ip4, carries, is_icmp_error, meets, is_there, normal};
ghost use Rattle.nv_base.specs.declared.field.Field.{Field};
ghost use Rattle.nv_base.specs.declared.field.Prerequisite.{Prerequisite};

use crate::Packet;
use nv_base::{Field, Prerequisite};

// Ethernet types.
pub(crate) const IP4: u128 = 0x800;

pub(crate) const ARP: u128 = 0x806;

// Protocols over IPv4.
pub(crate) const ICMP: u128 = 1;

const TCP: u128 = 6;

const UDP: u128 = 17;

// Types of ICMP errors.
const UNREACHABLE: u128 = 3;

const TIME_EXCEEDED: u128 = 11;

impl Packet {
    /// Whether the packet is what a field needs to be there.
    pub fn meets(&self, needed: Prerequisite) -> bool
        ensures { result ≡ meets self.now needed }
    {
        match needed {
            Prerequisite::Nothing => true,
            Prerequisite::Ip4 => self.is_ip4(),
            Prerequisite::Arp => self.get(Field::EthType) == ARP,
            Prerequisite::Tcp => self.carries(TCP),
            Prerequisite::Udp => self.carries(UDP),
            Prerequisite::Icmp4 => self.carries(ICMP),
            Prerequisite::IcmpError => self.is_icmp_error(),
        }
    }

    fn is_ip4(&self) -> bool
        ensures { result ≡ is_ip4 self.now }
    {
        self.get(Field::EthType) == IP4
    }

    // Whether it is IPv4 with this protocol.
    fn carries(&self, protocol: u128) -> bool
        ensures { result ≡ carries self.now protocol }
    {
        self.is_ip4() && self.get(Field::IpProto) == protocol
    }

    fn is_icmp_error(&self) -> bool
        ensures { result ≡ is_icmp_error self.now }
    {
        let kind = self.get(Field::Icmp4Type);
        self.carries(ICMP) && (kind == UNREACHABLE || kind == TIME_EXCEEDED)
    }

    /// The packet, with zero for each field whose prerequisite it does not meet. It meets what it met before.
    pub fn normal(&self) -> Packet
        ensures value { result ≡ normal self.now }
        ensures fields { (field : Field) → value result field ≡ value_only self.now (is_there self.now) field }
        ensures kind { (needed : Prerequisite) → meets result needed ≡ meets self.now needed }
        ensures settled { normal result ≡ result }
    {
        let mut normal = *self;
        // It names the array, whose length the proof then knows.
        let _ = &normal.numbers;
        for field in Field::all() {
            if !self.meets(field.prerequisite()) {
                normal.set(*field, 0);
            }
        }
        normal
    }

    /// The packet with its header fields alone, each working field zero.
    pub fn headers(&self) -> Packet
        ensures value { result ≡ headers self.now }
        ensures fields { (field : Field) → value result field ≡ value_only self.now is_header field }
    {
        let mut headers = *self;
        // It names the array, whose length the proof then knows.
        let _ = &headers.numbers;
        for field in Field::all() {
            if !field.is_header() {
                headers.set(*field, 0);
            }
        }
        headers
    }

    /// The packet with its working fields alone, each header field zero.
    pub fn workings(&self) -> Packet
        ensures value { result ≡ workings self.now }
        ensures fields { (field : Field) → value result field ≡ value_only self.now is_working field }
    {
        let mut workings = *self;
        // It names the array, whose length the proof then knows.
        let _ = &workings.numbers;
        for field in Field::all() {
            if field.is_header() {
                workings.set(*field, 0);
            }
        }
        workings
    }
}
