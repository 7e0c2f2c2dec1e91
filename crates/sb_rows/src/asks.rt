//! What a match asks of a packet before all else, and the bucket that this tells.
ghost use Rattle.std.specs.Prelude.{◌≡◌, ◌<◌, ℕ, List, Some, true, bit_and, IfSome, IsTrue};
ghost use Rattle.std.specs.Option.{option_copied};
ghost use Rattle.nv_base.specs.Field.{field_number};
ghost use Rattle.expr_core.specs.Formula.{formulas};
ghost use Rattle.expr_core.specs.Formula.Formula.{Leaf, And};
ghost use Rattle.expr_core.specs.declared.typed.TypedAtom.TheVariants.{Compare};
ghost use Rattle.expr_core.specs.Lookup.{Lookup};
ghost use Rattle.expr_eval.specs.MatchMeaning.{holds};
ghost use Rattle.expr_eval.specs.Relation.{equals, equals_item};
ghost use Rattle.pkt_core.specs.Packet.{Values, value};
ghost use Rattle.sb_rows.specs.inner.Plain.{asked_by, atom_asked, comparison_asked, is_front, item_asked, masked_asked, match_asked, name_asked, nothing_asked, number_asked, operand_asked, operands_asked, part_width, plain, plain_asked, plain_ones_asked, port_asked, right_asked, short_of, side_by};
ghost use Rattle.sb_rows.specs.inner.Asks.{Adds, AreNames, HasAsked, IsCalled, IsKnown, bucket_by, bucket_of, joined, low, masked_bucket, mixed, name_bucket, name_of, number_at, number_bucket, numbers_at, numbers_of, part_bucket, port_bucket, port_field, shape_of, side_of};

use expr_core::{Bits, Item, Node, Rel, Right, Typed, TypedAtom};
use expr_ports::PortNames;
use nv_base::{Field, Name, ObjId};
use pkt_core::Packet;

// From here on buckets are not shared: each belongs to what is asked itself.
pub(crate) const FIRST_OWN: u64 = 1 << 63;

// By this number buckets are mixed.
const MIX: u128 = 0x9E37_79B9_7F4A_7C15;

// Which port of a packet.
#[derive(Clone, Copy)]
pub(crate) enum Side {
    // That by which it came in.
    In,
    // That by which it goes out.
    Out,
}

// What a bucket is told by, of the numbers of a packet.
#[derive(Clone, Copy)]
pub(crate) enum Part {
    // By nothing: each packet is in one bucket.
    Anything,
    // By the number of a field.
    Number(Field),
    // By the first bits of a number of 32 bits, those of a mask.
    Masked(Field, u32),
}

// What a bucket is told by: the name of a port, where one is asked for, and up to three numbers.
#[derive(Clone, Copy)]
pub(crate) struct Shape {
    port: Option<Side>,
    first: Part,
    second: Part,
    third: Part,
}

// The numbers of a packet that a shape has.
pub(crate) type Numbers = (u64, u64, u64);

// A number that is asked of a packet, as far as 64 bits hold it. No field has more than 48.
#[derive(Clone, Copy)]
struct Asked {
    part: Part,
    number: u64,
}

// A name, and its bucket.
#[derive(Clone, Copy)]
pub(crate) struct Called<'n> {
    pub(crate) name: &'n Name,
    pub(crate) bucket: u64,
}

// What a match asks of a packet: the name of a port, and the three numbers that have the most bits.
#[derive(Clone, Copy)]
pub(crate) struct Asks<'m> {
    port: Option<(Side, Called<'m>)>,
    first: Asked,
    second: Asked,
    third: Asked,
}

// The bucket that one more number tells.
#[inline]
fn mixed(bucket: u64, number: u64) -> u64
    ensures { result ≡ mixed bucket number }
{
    low(u128::from(bucket) * MIX + u128::from(number))
}

// The low 64 bits of a number.
#[inline]
fn low(number: u128) -> u64
    ensures { result ≡ low number }
{
    (number % (1 << 64)) as u64
}

// The bucket of a name.
fn name_bucket(name: &Name) -> u64
    ensures { result ≡ name_bucket name.now }
{
    let mut bucket = 0;
    for byte in name.as_slice() {
        bucket = mixed(bucket, u64::from(*byte));
    }
    bucket
}

// The bucket of a number of a field.
#[inline]
fn number_bucket(field: Field, number: u64) -> u64
    ensures { result ≡ number_bucket field number }
{
    mixed(u64::from(field.number()), number)
}

// The bucket of a number of the bits of a mask.
#[inline]
fn masked_bucket(field: Field, mask: u32, number: u64) -> u64
    ensures { result ≡ masked_bucket field mask number }
{
    let masked = mixed(u64::from(field.number()), u64::from(mask));
    mixed(masked, number)
}

impl Part {
    // How many bits are asked.
    #[inline]
    fn width(self) -> u32
        ensures { result ≡ part_width self }
    {
        match self {
            Part::Anything => 0,
            Part::Number(field) => u32::from(field.width()),
            Part::Masked(_, mask) => mask.count_ones(),
        }
    }

    // The number that a packet has there.
    #[inline]
    fn number_at(self, packet: &Packet) -> u64
        ensures { result ≡ number_at self packet.now }
    {
        match self {
            Part::Anything => 0,
            Part::Number(field) => low(packet.get(field)),
            Part::Masked(field, mask) => low(packet.get(field) & u128::from(mask)),
        }
    }

    // The bucket of a number there.
    #[inline]
    fn bucket(self, number: u64) -> u64
        ensures { result ≡ part_bucket self number }
    {
        match self {
            Part::Anything => 0,
            Part::Number(field) => number_bucket(field, number),
            Part::Masked(field, mask) => masked_bucket(field, mask, number),
        }
    }
}

impl Side {
    // The number of a packet's port.
    #[inline]
    pub(crate) fn port(self, packet: &Packet) -> ObjId
        ensures { result.0 ≡ value packet.now (port_field self) }
    {
        match self {
            Side::In => ObjId(packet.get(Field::Inport) as u32),
            Side::Out => ObjId(packet.get(Field::Outport) as u32),
        }
    }
}

// The names that a packet's port may have.
#[derive(Clone, Copy)]
pub(crate) struct Ports<'e> {
    pub(crate) one: Option<Called<'e>>,
    pub(crate) other: Option<Called<'e>>,
}

// Those of one of a packet's ports.
#[derive(Clone, Copy)]
pub(crate) struct Known<'e> {
    side: Side,
    ports: Ports<'e>,
}

// A name and its bucket, where there is one.
fn with_bucket(name: Option<&Name>) -> Option<Called<'_>>
    ensures { (own : List ℕ) → option_copied name.entry ≡ Some own → IsCalled result own }
{
    match name {
        Some(name) => Some(Called {
            name,
            bucket: name_bucket(name),
        }),
        None => None,
    }
}

// The names of a packet's port.
fn ports_at<'e, E: PortNames>(side: Side, packet: &Packet, env: &'e E) -> Ports<'e>
    ensures { AreNames side result (E.lookup env.now) packet.now }
{
    let (one, other) = env.port_names(side.port(packet));
    Ports {
        one: with_bucket(one),
        other: with_bucket(other),
    }
}

// Those of a port, where it is one of which they are wanted.
pub(crate) fn known_at<'e, E: PortNames>(
    side: Option<Side>,
    packet: &Packet,
    env: &'e E,
) -> Option<Known<'e>>
    ensures { IsKnown result (E.lookup env.now) packet.now }
{
    match side {
        Some(side) => Some(Known {
            side,
            ports: ports_at(side, packet, env),
        }),
        None => None,
    }
}

// Those of this port, which need not be asked for again where they are known.
#[inline]
pub(crate) fn ports_by<'e, E: PortNames>(
    known: Option<Known<'e>>,
    side: Side,
    packet: &Packet,
    env: &'e E,
) -> Ports<'e>
    requires { IsKnown known (E.lookup env.now) packet.now }
    ensures { AreNames side result (E.lookup env.now) packet.now }
{
    match known {
        Some(known) if is_same_side(known.side, side) => known.ports,
        _ => ports_at(side, packet, env),
    }
}

// The bucket of a port's name, by its own, and of numbers, by theirs.
#[inline]
fn joined(name: u64, first: u64, second: u64, third: u64) -> u64
    ensures { result ≡ joined name first second third }
{
    mixed(mixed(mixed(name, first), second), third)
}

// Whether two parts are one.
fn is_same_part(one: Part, other: Part) -> bool
    ensures { IsTrue result → one ≡ other }
{
    match (one, other) {
        (Part::Anything, Part::Anything) => true,
        (Part::Number(field), Part::Number(there)) => field == there,
        (Part::Masked(field, mask), Part::Masked(there, bits)) => field == there && mask == bits,
        _ => false,
    }
}

// Whether two sides are one.
#[inline]
pub(crate) fn is_same_side(one: Side, other: Side) -> bool
    ensures { IsTrue result → one ≡ other }
{
    match (one, other) {
        (Side::In, Side::In) | (Side::Out, Side::Out) => true,
        _ => false,
    }
}

// Whether the name of the same port is asked for, or of none.
fn is_same_port(one: Option<Side>, other: Option<Side>) -> bool
    ensures { IsTrue result → one ≡ other }
{
    match (one, other) {
        (None, None) => true,
        (Some(one), Some(other)) => is_same_side(one, other),
        _ => false,
    }
}

impl Shape {
    // Whether two shapes are one.
    pub(crate) fn is_same(self, other: Shape) -> bool
        ensures { IsTrue result → self ≡ other }
    {
        is_same_part(self.first, other.first)
            && is_same_part(self.second, other.second)
            && is_same_part(self.third, other.third)
            && is_same_port(self.port, other.port)
    }

    // The port whose name is asked for.
    #[inline]
    pub(crate) fn port(self) -> Option<Side>
        ensures { result ≡ self.port }
    {
        self.port
    }

    // The numbers that a packet has.
    #[inline]
    pub(crate) fn numbers_at(self, packet: &Packet) -> Numbers
        ensures { result ≡ numbers_at self packet.now }
    {
        (
            self.first.number_at(packet),
            self.second.number_at(packet),
            self.third.number_at(packet),
        )
    }

    // The bucket of a name, by its own, and of numbers, which is below `FIRST_OWN`.
    #[inline]
    pub(crate) fn bucket(self, name: u64, numbers: Numbers) -> u64
        ensures { result ≡ bucket_by self name numbers }
    {
        let (first, second, third) = numbers;
        let joined = joined(
            name,
            self.first.bucket(first),
            self.second.bucket(second),
            self.third.bucket(third),
        );
        joined / 2
    }
}

// Whether the bits of a mask are the first of 32, and not none.
#[tactic(auto, unfolding(crate::specs::inner::Plain::is_front))]
fn is_front(mask: u128) -> bool
    ensures told { result ≡ is_front mask }
    ensures fits { IsTrue result → mask < 4294967296 }
{
    let all = (1 << 32) - 1;
    if mask == 0 {
        return false;
    }
    if mask > all {
        return false;
    }
    mask | (mask - 1) == all
}

// Which port a field tells, if it does.
fn side_by(field: Field) -> Option<Side>
    ensures told { result ≡ side_by (field_number field) }
    ensures same { IfSome result (λ side. field_number (port_field side) ≡ field_number field) }
{
    let number = field.number();
    if number == Field::Inport.number() {
        Some(Side::In)
    } else if number == Field::Outport.number() {
        Some(Side::Out)
    } else {
        None
    }
}

impl<'m> Asks<'m> {
    // What each packet has.
    fn nothing() -> Asks<'m>
        ensures asked { (net : Lookup) (packet : Values) → HasAsked result net packet }
        ensures told { plain result ≡ nothing_asked }
    {
        let nothing = Asked {
            part: Part::Anything,
            number: 0,
        };
        Asks {
            port: None,
            first: nothing,
            second: nothing,
            third: nothing,
        }
    }

    // What the match asks.
    pub(crate) fn of(matching: &'m Typed) -> Asks<'m>
        ensures asked { (net : Lookup) (packet : Values) → holds net packet matching.now ≡ true → HasAsked result net packet }
        ensures told { plain result ≡ asked_by matching.now }
    {
        Asks::nothing().with_match(matching)
    }

    // This, without the second and the third number.
    pub(crate) fn in_short(self) -> Asks<'m>
        ensures asked { (net : Lookup) (packet : Values) → HasAsked self.entry net packet → HasAsked result net packet }
        ensures told { plain result ≡ short_of (plain self.entry) }
    {
        let nothing = Asked {
            part: Part::Anything,
            number: 0,
        };
        Asks {
            second: nothing,
            third: nothing,
            ..self
        }
    }

    // The port whose name is asked for.
    pub(crate) fn side(self) -> Option<Side>
        ensures { result ≡ side_of self.entry.port }
    {
        match self.port {
            Some((side, _)) => Some(side),
            None => None,
        }
    }

    // The name that is asked for.
    pub(crate) fn name(self) -> Option<&'m Name>
        ensures { option_copied result ≡ name_of self.entry.port }
    {
        match self.port {
            Some((_, called)) => Some(called.name),
            None => None,
        }
    }

    // Its bucket.
    fn name_bucket(self) -> u64
        ensures { result ≡ port_bucket self.entry.port }
    {
        match self.port {
            Some((_, called)) => called.bucket,
            None => 0,
        }
    }

    // The numbers that are asked.
    pub(crate) fn numbers(self) -> Numbers
        ensures { result ≡ numbers_of self.entry }
    {
        (self.first.number, self.second.number, self.third.number)
    }

    // What its bucket is told by.
    pub(crate) fn shape(self) -> Shape
        ensures { result ≡ shape_of self.entry }
    {
        Shape {
            port: self.side(),
            first: self.first.part,
            second: self.second.part,
            third: self.third.part,
        }
    }

    // The bucket of what is asked.
    pub(crate) fn bucket(self) -> u64
        ensures { result ≡ bucket_of self.entry }
    {
        self.shape().bucket(self.name_bucket(), self.numbers())
    }

    // This, and a number, where it has more bits than another.
    #[tactic(auto, unfolding(crate::specs::inner::Plain::number_asked))]
    #[inline(always)]
    fn with_number(self, asked: Asked) -> Asks<'m>
        ensures told { plain result ≡ number_asked asked (plain self.entry) }
        ensures adds { (net : Lookup) (packet : Values) → HasAsked self.entry net packet
            → number_at asked.part packet ≡ asked.number → HasAsked result net packet }
    {
        let width = asked.part.width();
        if width > self.first.part.width() {
            Asks {
                first: asked,
                second: self.first,
                third: self.second,
                ..self
            }
        } else if width > self.second.part.width() {
            Asks {
                second: asked,
                third: self.second,
                ..self
            }
        } else if width > self.third.part.width() {
            Asks {
                third: asked,
                ..self
            }
        } else {
            self
        }
    }

    // This, and the bits of a mask, where they are the first of 32, and not none.
    #[tactic(auto, unfolding(crate::specs::inner::Plain::masked_asked))]
    fn with_masked(self, field: Field, base: u128, mask: u128) -> Asks<'m>
        ensures told { plain result ≡ masked_asked field base mask (plain self.entry) }
        ensures adds { (net : Lookup) (packet : Values) → HasAsked self.entry net packet
            → bit_and (value packet field) mask ≡ bit_and base mask → HasAsked result net packet }
    {
        if !is_front(mask) {
            return self;
        }
        let mask = mask as u32;
        self.with_number(Asked {
            part: Part::Masked(field, mask),
            number: low(base & u128::from(mask)),
        })
    }

    // This, and the name of a port, where none is asked for yet.
    #[tactic(auto, unfolding(crate::specs::inner::Plain::name_asked))]
    fn with_name(self, side: Side, name: &'m Name) -> Asks<'m>
        ensures told { plain result ≡ name_asked side name.now (plain self.entry) }
        ensures adds { (net : Lookup) (packet : Values) → HasAsked self.entry net packet
            → net.port name.now ≡ Some (record { 0 = value packet (port_field side) }) → HasAsked result net packet }
    {
        if self.port.is_some() {
            return self;
        }
        Asks {
            port: Some((
                side,
                Called {
                    name,
                    bucket: name_bucket(name),
                },
            )),
            ..self
        }
    }

    // This, and the name of the port of a field, where it is a port's.
    fn with_port(self, field: Field, name: &'m Name) -> Asks<'m>
        ensures told { plain result ≡ port_asked (side_by (field_number field)) name.now (plain self.entry) }
        ensures adds { (net : Lookup) (packet : Values) → HasAsked self.entry net packet
            → net.port name.now ≡ Some (record { 0 = value packet field }) → HasAsked result net packet }
    {
        match side_by(field) {
            Some(side) => self.with_name(side, name),
            None => self,
        }
    }

    // This, and that a number of a field equals an item.
    #[tactic(auto, unfolding(crate::specs::inner::Plain::item_asked))]
    #[inline(always)]
    fn with_item(self, field: Field, item: &'m Item) -> Asks<'m>
        ensures told { plain result ≡ item_asked field item.now (plain self.entry) }
        ensures adds { (net : Lookup) (packet : Values) (width : ℕ) → HasAsked self.entry net packet
            → equals_item net width (value packet field) item.now ≡ true → HasAsked result net packet }
    {
        match item {
            Item::One(constant) => self.with_number(Asked {
                part: Part::Number(field),
                number: low(constant.value()),
            }),
            Item::Masked(base, mask) => self.with_masked(field, base.value(), base.mask_of(*mask)),
            Item::Text(name) => self.with_port(field, name),
            Item::AddrSet(_) | Item::Group(_) => self,
        }
    }

    // This, and that a number of a field equals an item or one of them, where it is one.
    #[tactic(auto, unfolding(crate::specs::inner::Plain::right_asked))]
    #[inline(always)]
    fn with_right(self, field: Field, right: &'m Right) -> Asks<'m>
        ensures told { plain result ≡ right_asked field right.now (plain self.entry) }
        ensures adds { (net : Lookup) (packet : Values) (width : ℕ) → HasAsked self.entry net packet
            → equals net width (value packet field) right.now ≡ true → HasAsked result net packet }
    {
        match right {
            Right::Item(item) => self.with_item(field, item),
            Right::Set(items) => match items.as_slice() {
                [item] => self.with_item(field, item),
                _ => self,
            },
        }
    }

    // This, and what the comparison of a part of a field asks.
    #[tactic(auto, unfolding(crate::specs::inner::Plain::comparison_asked))]
    #[inline(always)]
    fn with_comparison(self, field: Field, bits: Bits, rel: Rel, right: &'m Right) -> Asks<'m>
        ensures told { plain result ≡ comparison_asked field bits rel right.now (plain self.entry) }
        ensures adds { Adds (Leaf (Compare field bits rel right.now)) self.entry result }
    {
        match (bits, rel) {
            (Bits::Whole, Rel::Eq) => self.with_right(field, right),
            _ => self,
        }
    }

    // This, and what an atom asks.
    #[tactic(auto, unfolding(crate::specs::inner::Plain::atom_asked))]
    #[inline(always)]
    fn with_atom(self, atom: &'m TypedAtom) -> Asks<'m>
        ensures told { plain result ≡ atom_asked atom.now (plain self.entry) }
        ensures adds { Adds (Leaf atom.now) self.entry result }
    {
        match atom {
            TypedAtom::Compare(field, bits, rel, right) => {
                self.with_comparison(*field, *bits, *rel, right)
            }
            TypedAtom::Truth(_) | TypedAtom::Bare(_, _) | TypedAtom::Holds(_) => self,
        }
    }

    // This, and what a match without operators asks.
    fn with_plain(self, matching: &'m Typed) -> Asks<'m>
        ensures told { plain result ≡ plain_asked matching.now (plain self.entry) }
        ensures adds { Adds matching.now self.entry result }
    {
        match &matching.node {
            Node::Atom(atom) => self.with_atom(atom),
            Node::Not(_) | Node::And(_) | Node::Or(_) => self,
        }
    }

    // This, and what operands ask of a conjunction, those without operators.
    fn with_plain_ones(self, operands: &'m [Typed]) -> Asks<'m>
        ensures told { plain result ≡ plain_ones_asked (formulas operands.now) (plain self.entry) }
        ensures adds { Adds (And (formulas operands.now)) self.entry result }
    {
        let mut asks = self;
        for operand in operands {
            asks = asks.with_plain(operand);
        }
        asks
    }

    // This, and what a match asks that is an operand.
    fn with_operand(self, matching: &'m Typed) -> Asks<'m>
        ensures told { plain result ≡ operand_asked matching.now (plain self.entry) }
        ensures adds { Adds matching.now self.entry result }
    {
        match &matching.node {
            Node::And(operands) => self.with_plain_ones(operands),
            Node::Atom(_) | Node::Not(_) | Node::Or(_) => self.with_plain(matching),
        }
    }

    // This, and what operands ask of a conjunction.
    fn with_operands(self, operands: &'m [Typed]) -> Asks<'m>
        ensures told { plain result ≡ operands_asked (formulas operands.now) (plain self.entry) }
        ensures adds { Adds (And (formulas operands.now)) self.entry result }
    {
        let mut asks = self;
        for operand in operands {
            asks = asks.with_operand(operand);
        }
        asks
    }

    // This, and what a match asks: of a conjunction its operands, and of one among these its own.
    fn with_match(self, matching: &'m Typed) -> Asks<'m>
        ensures told { plain result ≡ match_asked matching.now (plain self.entry) }
        ensures adds { Adds matching.now self.entry result }
    {
        match &matching.node {
            Node::And(operands) => self.with_operands(operands),
            Node::Atom(_) | Node::Not(_) | Node::Or(_) => self.with_plain(matching),
        }
    }
}
