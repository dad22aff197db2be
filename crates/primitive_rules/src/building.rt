//! Primitives made of their declarations, and where they are refused.
ghost use Rattle.std.specs.Prelude.{◌≡◌, ◌≢◌, nat_lt, if◌then◌else◌, IfOk, IfErr, MatchResult, None, Some};
ghost use Rattle.level_range.specs.declared.range.Logic.TheVariants.{Z};
ghost use Rattle.udp_table.specs.Primitive.{IsAccepted};
ghost use Rattle.udp_table.specs.Faults.{IsRefusal};
ghost use Rattle.rule_places.specs.Places.{first_place};
ghost use Rattle.primitive_rules.specs.Arguments.{arguments_of, primitive_of};
ghost use Rattle.primitive_rules.specs.Refusals.{IsFaultOf, fault_place, refusal_of, row_place, table_places};

use crate::arguments::{UdpArguments, arguments_of};
use std::alloc::{AllocError, Global};
use udp_table::{Udp, UdpFault, build};
use v_tree::{Location, UdpDecl};

/// The number of inputs, or another that is refused as it is where it is too large.
fn input_count(inputs: usize) -> u8
    ensures { result ≡ (if nat_lt inputs 256 then inputs else 255) }
{
    u8::try_from(inputs).unwrap_or(u8::MAX)
}

/// The primitive of its arguments.
fn udp_with(alloc: Global, arguments: &UdpArguments) -> Result<Udp, UdpFault>
    requires { arguments.now.start ≢ Z }
    ensures kept { IfOk result (λ udp. udp ≡ primitive_of arguments.now) }
    ensures accepted { IfOk result (λ udp. IsAccepted udp) }
    ensures fault { IfErr result (IsFaultOf arguments.now) }
    ensures refusal { MatchResult result (λ udp. refusal_of arguments.now ≡ None)
        (λ fault. IsRefusal fault → refusal_of arguments.now ≡ Some fault) }
{
    build(
        alloc,
        input_count(arguments.inputs),
        arguments.sequential,
        arguments.start,
        &arguments.rows,
    )
}

/// The primitive of a declaration, as `udp_table::build` makes it of the declaration's arguments. Where
/// it is refused, rows are counted from 0. Want of memory may come before any other fault.
pub fn udp_of(alloc: Global, udp: &UdpDecl) -> Result<Udp, UdpFault>
    ensures kept { IfOk result (λ made. made ≡ primitive_of (arguments_of udp.now)) }
    ensures accepted { IfOk result (λ made. IsAccepted made) }
    ensures fault { IfErr result (λ fault. IsRefusal fault →
        IsFaultOf (arguments_of udp.now) fault) }
    ensures refusal { MatchResult result (λ made. refusal_of (arguments_of udp.now) ≡ None)
        (λ fault. IsRefusal fault → refusal_of (arguments_of udp.now) ≡ Some fault) }
{
    match arguments_of(alloc, udp) {
        Ok(arguments) => udp_with(alloc, &arguments),
        Err(_) => Err(UdpFault::Memory),
    }
}

/// Why a declaration is refused, where it is.
fn refusal_of(alloc: Global, udp: &UdpDecl) -> Result<Option<UdpFault>, AllocError>
    ensures { IfOk result (λ fault. fault ≡ refusal_of (arguments_of udp.now)) }
{
    match udp_of(alloc, udp) {
        Ok(_) => Ok(None),
        Err(UdpFault::Memory) => Err(AllocError),
        Err(fault) => Ok(Some(fault)),
    }
}

/// The first token of a row, or the name of the primitive where there is no such row.
fn row_place(udp: &UdpDecl, row: u64) -> Location
    ensures { result ≡ row_place udp.now row }
{
    match udp.rows.get(row as usize) {
        Some(placed) => placed.location,
        None => udp.name.location,
    }
}

/// Where a fault stands.
fn fault_place(udp: &UdpDecl, fault: UdpFault) -> Location
    ensures { result ≡ fault_place udp.now fault }
{
    match fault {
        UdpFault::TooManyInputs | UdpFault::Memory => udp.name.location,
        UdpFault::BadSymbol(row) | UdpFault::TwoEdges(row) | UdpFault::Clash(_, row) => {
            row_place(udp, row)
        }
    }
}

/// Where a declaration is refused, if it is.
pub fn table_place(alloc: Global, udp: &UdpDecl) -> Result<Option<Location>, AllocError>
    ensures { IfOk result (λ place. place ≡ first_place (table_places udp.now)) }
{
    match refusal_of(alloc, udp)? {
        Some(fault) => Ok(Some(fault_place(udp, fault))),
        None => Ok(None),
    }
}
