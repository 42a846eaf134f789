//! The verdicts on small parts.

ghost use Rattle.std.specs.Prelude.{IfSome};
ghost use Rattle.std.specs.List.{Contains};
ghost use Rattle.sn_entity.specs.declared.row.Group.TheVariants.{One as OneRow};
ghost use Rattle.sn_entity.specs.declared.row.RowId.TheVariants.{Axis2Placement3d};
ghost use Rattle.sn_refs.specs.Reference.{IsReached};
ghost use Rattle.sn_refs.specs.Target.{IsTarget};

use crate::fixtures::{file_text, model_of};
use sn_entity::{EntFault, RowId, Triple, Value};
use sn_model::project_has_row;
use sn_refs::{Checked, RefFault, check};
use std::alloc::Global;
use std::process::Abort;
use std::test::Fail;

/// The instances of a part with one hole, without its security plane and the dimension of its tool.
const ONE_HOLE: &str =
    "#1=PROJECT('one',#2,(#3),$,$,$);#2=WORKPLAN('main',(#4),$,#5,$);#3=WORKPIECE('block',$,$,$,$,#6,());#4=MACHINING_WORKINGSTEP('hole',#7,#8,#9,$);#5=SETUP('setup',$,#7,(#10));#6=BLOCK('raw',#11,20.,20.,10.);#8=ROUND_HOLE('hole',#3,(#9),#13,#14,#15,$,#16);#9=DRILLING($,$,'plunge',$,$,#17,#18,$,$,$,$,$,$,$);#10=WORKPIECE_SETUP(#3,#11,$,$,());#11=AXIS2_PLACEMENT_3D('origin',#19,$,$);#12=AXIS2_PLACEMENT_3D('security',#20,$,$);#13=AXIS2_PLACEMENT_3D('hole',#21,$,$);#14=PLANE('depth',#22);#15=TOLERANCED_LENGTH_MEASURE(8.,$);#16=FLAT_HOLE_BOTTOM();#17=CUTTING_TOOL('mill 8',#23,(),80.,$,$);#18=MILLING_TECHNOLOGY(0.005,.TCP.,$,-12.,$,.F.,.F.,.F.,$);#19=CARTESIAN_POINT('',(0.,0.,0.));#20=CARTESIAN_POINT('',(0.,0.,20.));#21=CARTESIAN_POINT('',(10.,10.,10.));#22=AXIS2_PLACEMENT_3D('depth',#24,$,$);#23=ENDMILL(#25,4,.RIGHT.,.F.,$,$);#24=CARTESIAN_POINT('',(0.,0.,-6.));";

/// What `check` answers of the model of these instances.
fn verdict(alloc: Global, instances: &str) -> Result<Result<Checked, RefFault>, Fail> {
    let text = file_text(alloc, instances)?;
    let model = model_of(alloc, text.as_bytes())?;
    Ok(check(alloc, model))
}

#[test]
fn parts_are_refused_by_their_first_fault(rt: HostRuntime) -> Result<(), Fail> {
    let rows = [
        (
            "#1=PROJECT('',#2,());#2=WORKPLAN('',());",
            RefFault::Entity(EntFault::Count(2, 4, 2)),
        ),
        ("#1=PROJECT('',#2,());", RefFault::Dangling(1, 2)),
        // The first bad element of a list decides.
        (
            "#1=PROJECT('',#2,());#2=WORKPLAN('',(#3,#4,#1),$,$);#3=WORKPLAN('',(),$,$);",
            RefFault::Dangling(2, 2),
        ),
        (
            "#1=PROJECT('',#2,());#2=WORKPLAN('',(#3,#1,#4),$,$);#3=WORKPLAN('',(),$,$);",
            RefFault::WrongKind(2, 2, 1),
        ),
        (
            "#1=PROJECT('',#2,());#2=WORKPLAN('',(#6),$,$);#6=OWN();",
            RefFault::WrongKind(2, 2, 6),
        ),
        // The least number decides, whatever the order of the instances and the way to them.
        (
            "#9=PROJECT('',#5,(#3));#5=WORKPLAN('',(#7),$,$);#3=WORKPIECE('',$,$,#8,$,$);",
            RefFault::Dangling(3, 4),
        ),
        (
            "#9=PROJECT('',#5,(#3));#5=WORKPLAN('',());#3=WORKPIECE('',$,$,#8,$,$);",
            RefFault::Dangling(3, 4),
        ),
        // A block is followed where anything may stand.
        (
            "#1=PROJECT('',#2,(#3));#2=WORKPLAN('',(),$,$);#3=WORKPIECE('',$,$,$,$,#4);#4=BLOCK('',#5,1.,1.,1.);",
            RefFault::Dangling(4, 2),
        ),
        // Cycles: the least number on one, which the way there need not pass first.
        (
            "#1=PROJECT('',#2,());#2=WORKPLAN('',(#2),$,$);",
            RefFault::Cycle(2),
        ),
        (
            "#1=PROJECT('',#2,());#2=WORKPLAN('',(#7),$,$);#7=WORKPLAN('',(#5),$,$);#5=WORKPLAN('',(#7),$,$);",
            RefFault::Cycle(5),
        ),
        (
            "#1=PROJECT('',#2,());#2=WORKPLAN('',(#4,#8),$,$);#4=WORKPLAN('',(#8),$,$);#8=WORKPLAN('',(#6,#8),$,$);#6=WORKPLAN('',(#9),$,$);#9=WORKPLAN('',(#6),$,$);",
            RefFault::Cycle(6),
        ),
        (
            "#1=PROJECT('',#9,());#9=WORKPLAN('',(#8,#3),$,$);#8=WORKPLAN('',(#9),$,$);#3=WORKPLAN('',(),$,$);",
            RefFault::Cycle(8),
        ),
        // Any other fault goes before a cycle.
        (
            "#1=PROJECT('',#2,());#2=WORKPLAN('',(#2,#3),$,$);#3=WORKPLAN('',(#4),$,$);",
            RefFault::Dangling(3, 2),
        ),
    ];
    for (instances, fault) in rows {
        match verdict(rt.alloc(), instances)? {
            Ok(_) => return Err(Fail::from("a sound model")),
            Err(told) => assert_eq!(rt; told, fault),
        }
    }
    Ok(())
}

#[test]
fn sound_parts_are_checked(rt: HostRuntime) -> Result<(), Fail> {
    let rows = [
        "#1=PROJECT('',#2,());#2=WORKPLAN('',(),$,$);",
        // What the project does not lead to may have any fault.
        "#1=PROJECT('',#2,());#2=WORKPLAN('',(),$,$);#3=WORKPLAN('',(#3,#9),$,$);#4=WORKPLAN();",
        // Two ways lead to one instance.
        "#1=PROJECT('',#2,());#2=WORKPLAN('',(#3,#4,#3),$,$);#3=WORKPLAN('',(#4),$,$);#4=WORKPLAN('',(),$,$);",
        // Where anything may stand what is no block is not followed.
        "#1=PROJECT('',#2,(#3));#2=WORKPLAN('',(),$,$);#3=WORKPIECE('',$,$,$,$,#1);",
        "#1=PROJECT('',#2,(#3));#2=WORKPLAN('',(),$,$);#3=WORKPIECE('',$,$,$,$,#9);",
    ];
    for instances in rows {
        assert!(rt; verdict(rt.alloc(), instances)?.is_ok());
    }
    Ok(())
}

/// What stands at places, from the project down to the diameter of the hole and the point of the security plane.
fn check_places(rt: &impl Abort, checked: &Checked) {
    checked.rule();
    project_has_row();
    let workplan = checked.one(checked.project(), 0);
    assert_eq!(rt; workplan, 2);
    assert_eq!(rt; checked.many(checked.project(), 1), [3].as_slice());
    let Some(setup) = checked.maybe_one(workplan, 1) else {
        return assert!(rt; false, "no setup");
    };
    assert_eq!(rt; (setup, checked.maybe_one(setup, 0)), (5, Some(7)));
    let Some(step) = first(checked.many(workplan, 0)) else {
        return assert!(rt; false, "no step");
    };
    if checked.fields(step).row == RowId::MachiningWorkingstep {
        check_hole(rt, checked, checked.one(step, 1));
    }
}

/// The point of a placement.
fn location(checked: &Checked, placement: u32) -> Triple
    requires { IsTarget checked.now (OneRow Axis2Placement3d) placement }
{
    checked.triple(checked.one(placement, 0), 0)
}

/// The point and the diameter of the hole.
fn check_hole(rt: &impl Abort, checked: &Checked, hole: u32)
    requires { IsReached checked.now hole }
{
    assert_eq!(rt; hole, 8);
    if checked.fields(hole).row == RowId::RoundHole {
        let point = location(checked, checked.one(hole, 0));
        assert_eq!(rt; (point.x, point.y, point.z), (100_000, 100_000, 100_000));
        let diameter = checked.one(hole, 2);
        if checked.fields(diameter).row == RowId::TolerancedLengthMeasure {
            assert_eq!(rt; checked.num(diameter, 0), 80_000);
        }
    }
}

/// The first of the numbers.
fn first(numbers: &[u32]) -> Option<u32>
    ensures { IfSome result (λ n. Contains numbers.now n) }
{
    numbers.first().copied()
}

#[test]
fn part_with_one_hole(rt: HostRuntime) -> Result<(), Fail> {
    let rows = [
        (
            "#7=PLANE('security',#12);",
            "",
            Some(RefFault::Dangling(23, 1)),
        ),
        (
            "#7=PLANE('security',#19);",
            "#25=MILLING_TOOL_DIMENSION(8.,$,$,20.,0.,$,$);",
            Some(RefFault::WrongKind(7, 2, 19)),
        ),
        (
            "#7=PLANE('security',#12);",
            "#25=MILLING_TOOL_DIMENSION(8.,$,$,20.,0.,$,$);",
            None,
        ),
    ];
    for (plane, dimension, fault) in rows {
        let instances = format!(in rt.alloc(); "{ONE_HOLE}{plane}{dimension}")?;
        match verdict(rt.alloc(), instances.as_str())? {
            Ok(checked) => {
                assert_eq!(rt; fault, None);
                assert_eq!(rt; checked.project(), 1);
                let project = checked.fields(checked.project());
                assert_eq!(rt; project.row, RowId::Project);
                assert!(rt; matches!(project.values.get(0), Some(Value::One(2))));
                assert!(rt; checked.names_block(6));
                assert!(rt; !checked.names_block(7));
                assert!(rt; !checked.names_block(26));
                check_places(&rt, &checked);
            }
            Err(told) => assert_eq!(rt; Some(told), fault),
        }
    }
    Ok(())
}
