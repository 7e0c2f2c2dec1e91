ghost use Rattle.std.specs.Prelude.{◌≡◌, ◌++◌, decimal, map, OnOk, OnErr};
ghost use Rattle.std.specs.List.{flat_map};
ghost use Rattle.sb_rows.specs.Listing.{pipeline_name, is_asked_for, heading, stage_text, row_text, row_rank, row_rule, rows_in, pipeline_listing, datapath_listing, listing};
ghost use Rattle.sb_rows.specs.Row.{rows_of};
ghost use Rattle.nv_base.specs.Growth.{GrowsAtEnd};

use crate::Rows;
use act_core::put_actions;
use expr_core::put_tree;
use itoa::Buffer;
use nv_base::{Name, ObjId, OutOfMemory};
use sb_model::{Pipeline, Row, Stage};

/// Writes the rows of each datapath that `names` numbers and names, or only of the one numbered
/// `only`, in that order. After `OutOfMemory` the bytes before are first, and a part of the listing may follow.
pub fn put_listing(
    out: &mut Vec<u8>,
    rows: &Rows,
    names: &[(ObjId, Name)],
    only: Option<ObjId>,
) -> Result<(), OutOfMemory>
    ensures ok { OnOk result (out.new.items ≡ out.old.items ++ listing rows.now names.now only) }
    ensures err { OnErr result (GrowsAtEnd out.old.items out.new.items) }
{
    for (dp, name) in names {
        if is_asked_for(only, *dp) {
            put_rows_of(out, rows, *dp, name)?;
        }
    }
    Ok(())
}

// Whether the datapath is to be listed.
fn is_asked_for(only: Option<ObjId>, dp: ObjId) -> bool
    ensures { result ≡ is_asked_for only dp }
{
    match only {
        None => true,
        Some(number) => number.0 == dp.0,
    }
}

// Writes the rows of a datapath.
fn put_rows_of(out: &mut Vec<u8>, rows: &Rows, dp: ObjId, name: &Name) -> Result<(), OutOfMemory>
    ensures ok { OnOk result (out.new.items ≡ out.old.items ++ datapath_listing (rows_of dp rows.now) name.now) }
    ensures err { OnErr result (GrowsAtEnd out.old.items out.new.items) }
{
    let listed = rows.of_datapath(dp)?;
    put_datapath(out, &listed, name)
}

fn put_datapath(out: &mut Vec<u8>, rows: &[&Row], name: &Name) -> Result<(), OutOfMemory>
    ensures ok { OnOk result (out.new.items ≡ out.old.items ++ datapath_listing (map (λ r. r.now) rows.now) name.now) }
    ensures err { OnErr result (GrowsAtEnd out.old.items out.new.items) }
{
    put_pipeline(out, rows, name, Pipeline::Ingress)?;
    put_pipeline(out, rows, name, Pipeline::Egress)?;
    Ok(())
}

fn put_pipeline(
    out: &mut Vec<u8>,
    rows: &[&Row],
    name: &Name,
    pipeline: Pipeline,
) -> Result<(), OutOfMemory>
    ensures ok { OnOk result (out.new.items ≡ out.old.items ++ pipeline_listing (map (λ r. r.now) rows.now) name.now pipeline) }
    ensures err { OnErr result (GrowsAtEnd out.old.items out.new.items) }
{
    put_heading(out, name, pipeline)?;
    put_rows(out, rows, pipeline)?;
    Ok(())
}

fn put_rows(out: &mut Vec<u8>, rows: &[&Row], pipeline: Pipeline) -> Result<(), OutOfMemory>
    ensures ok { OnOk result (out.new.items ≡ out.old.items ++ flat_map row_text (rows_in pipeline (map (λ r. r.now) rows.now))) }
    ensures err { OnErr result (GrowsAtEnd out.old.items out.new.items) }
{
    for row in rows {
        if row.stage.pipeline() == pipeline {
            put_row_line(out, row)?;
        }
    }
    Ok(())
}

fn put_heading(out: &mut Vec<u8>, name: &Name, pipeline: Pipeline) -> Result<(), OutOfMemory>
    ensures ok { OnOk result (out.new.items ≡ out.old.items ++ heading name.now pipeline) }
    ensures err { OnErr result (GrowsAtEnd out.old.items out.new.items) }
{
    out.extend_from_slice(b"Datapath: ")?;
    out.extend_from_slice(name.as_slice())?;
    out.extend_from_slice(b"  Pipeline: ")?;
    out.extend_from_slice(pipeline_name(pipeline).as_bytes())?;
    out.extend_from_slice(b"\n")?;
    Ok(())
}

#[tactic(auto, unfolding(crate::specs::Listing::row_text))]
fn put_row_line(out: &mut Vec<u8>, row: &Row) -> Result<(), OutOfMemory>
    ensures ok { OnOk result (out.new.items ≡ out.old.items ++ row_text row.now) }
    ensures err { OnErr result (GrowsAtEnd out.old.items out.new.items) }
{
    put_stage(out, row.stage)?;
    put_row_rank(out, row)?;
    put_row_rule(out, row)?;
    Ok(())
}

#[tactic(auto, unfolding(crate::specs::Listing::row_rank))]
fn put_row_rank(out: &mut Vec<u8>, row: &Row) -> Result<(), OutOfMemory>
    ensures ok { OnOk result (out.new.items ≡ out.old.items ++ row_rank row.now) }
    ensures err { OnErr result (GrowsAtEnd out.old.items out.new.items) }
{
    out.extend_from_slice(b", priority=")?;
    put_number(out, u32::from(row.priority))?;
    out.extend_from_slice(b", hint=")?;
    put_number(out, row.hint.0)?;
    Ok(())
}

#[tactic(auto, unfolding(crate::specs::Listing::row_rule))]
fn put_row_rule(out: &mut Vec<u8>, row: &Row) -> Result<(), OutOfMemory>
    ensures ok { OnOk result (out.new.items ≡ out.old.items ++ row_rule row.now) }
    ensures err { OnErr result (GrowsAtEnd out.old.items out.new.items) }
{
    out.extend_from_slice(b", match=(")?;
    put_tree(out, &row.matching)?;
    out.extend_from_slice(b"), action=(")?;
    put_actions(out, row.actions.as_slice())?;
    out.extend_from_slice(b")\n")?;
    Ok(())
}

#[tactic(auto, unfolding(crate::specs::Listing::stage_text))]
fn put_stage(out: &mut Vec<u8>, stage: Stage) -> Result<(), OutOfMemory>
    ensures ok { OnOk result (out.new.items ≡ out.old.items ++ stage_text stage) }
    ensures err { OnErr result (GrowsAtEnd out.old.items out.new.items) }
{
    out.extend_from_slice(b"  table=")?;
    put_number(out, u32::from(stage.table()))?;
    out.extend_from_slice(b" (")?;
    out.extend_from_slice(stage.name().as_bytes())?;
    out.push(b')')?;
    Ok(())
}

fn put_number(out: &mut Vec<u8>, number: u32) -> Result<(), OutOfMemory>
    ensures ok { OnOk result (out.new.items ≡ out.old.items ++ decimal number) }
    ensures err { OnErr result (out.new.items ≡ out.old.items) }
{
    let mut buffer = Buffer::new();
    out.extend_from_slice(buffer.format(number).as_bytes())?;
    Ok(())
}

fn pipeline_name(pipeline: Pipeline) -> &'static str
    ensures { result.now ≡ pipeline_name pipeline }
{
    match pipeline {
        Pipeline::Ingress => "ingress",
        Pipeline::Egress => "egress",
    }
}
