//! Walks over small parts.

use sn_part_tests::fixtures::{checked_of, file_text};
use sn_refs::Checked;
use sn_walk::{WalkFault, executed, main_setup, main_workplan};
use sn_words::Assign;
use sqlite_items::Items;
use std::alloc::Global;
use std::test::Fail;

/// A project, and what a workingstep and two setups lead to.
const BASE: &str =
    "#1=PROJECT('one',#2,(),$,$,$);#4=MACHINING_WORKINGSTEP('hole',#7,#8,#9,$);#5=SETUP('setup',$,#7,());#6=SETUP('other',$,#7,());#7=PLANE('security',#13);#8=ROUND_HOLE('hole',$,(),#13,#14,#15,$,#16);#9=DRILLING($,$,'plunge',$,$,#17,#18,$,$,$,$,$,$,$);#13=AXIS2_PLACEMENT_3D('hole',#21,$,$);#14=PLANE('depth',#13);#15=TOLERANCED_LENGTH_MEASURE(8.,$);#16=FLAT_HOLE_BOTTOM();#17=CUTTING_TOOL('mill 8',#23,(),80.,$,$);#18=MILLING_TECHNOLOGY(0.005,.TCP.,$,-12.,$,.F.,.F.,.F.,$);#21=CARTESIAN_POINT('',(10.,10.,10.));#23=ENDMILL(#25,4,.RIGHT.,.F.,$,$);#25=MILLING_TOOL_DIMENSION(8.,$,$,20.,0.,$,$);";

/// Three variables, two constants, and conditions over them.
const CONDITIONS: &str =
    "#31=COMPARISON_GREATER(#32,#33);#32=NC_VARIABLE('deep',$);#33=NC_CONSTANT('',1.);#34=NC_CONSTANT('',2.);#35=NC_VARIABLE('deep',0.5);#36=COMPARISON_GREATER(#35,#33);#40=AND_EXPRESSION(());#41=OR_EXPRESSION(());#42=NOT_EXPRESSION(#41);#43=XOR_EXPRESSION(#40,#41);#44=XOR_EXPRESSION(#40,#42);#45=AND_EXPRESSION((#40,#41,#42));#46=OR_EXPRESSION((#41,#40,#41));#47=OR_EXPRESSION((#40,#31));#48=AND_EXPRESSION((#41,#31));#49=NC_VARIABLE('',-1.);";

/// The model of these instances beside the base.
fn checked(alloc: Global, instances: &str) -> Result<Checked, Fail> {
    let instances = format!(in alloc; "{BASE}{instances}")?;
    let text = file_text(alloc, instances.as_str())?;
    checked_of(alloc, text.as_bytes())
}

/// Whether the walk over these instances, with a value for `deep`, gives the steps or the fault.
fn gives(
    alloc: Global,
    instances: &str,
    deep: Option<i32>,
    wanted: Result<&[u32], WalkFault>,
) -> Result<bool, Fail> {
    let mut sets = Items::new(alloc);
    sets.push(Assign {
        name: Items::from_slice(alloc, b"depth")?,
        value: -1,
    })?;
    if let Some(value) = deep {
        sets.push(Assign {
            name: Items::from_slice(alloc, b"deep")?,
            value,
        })?;
    }
    let checked = checked(alloc, instances)?;
    Ok(match (executed(alloc, &checked, sets.as_slice()), wanted) {
        (Ok(steps), Ok(wanted)) => steps.as_slice() == wanted,
        (Err(told), Err(wanted)) => told == wanted,
        _ => false,
    })
}

#[test]
fn workplans_and_their_setups(rt: HostRuntime) -> Result<(), Fail> {
    let rows: [(&str, Result<&[u32], WalkFault>); 10] = [
        ("#2=WORKPLAN('main',(),$,#5,$);", Ok(&[])),
        ("#2=WORKPLAN('main',(#4,#4),$,#5,$);", Ok(&[4, 4])),
        (
            "#2=WORKPLAN('main',(#11,#12,#11),$,#5,$);#11=WORKPLAN('',(#4),$,#5,$);#12=WORKPLAN('',(),$,$,$);",
            Ok(&[4, 4]),
        ),
        (
            "#2=WORKPLAN('main',(#4,#11),$,#5,$);#11=WORKPLAN('',(#4),$,#6,$);",
            Err(WalkFault::SecondSetup(11)),
        ),
        (
            "#2=WORKPLAN('main',(#11),$,$,$);#11=WORKPLAN('',(),$,#5,$);",
            Err(WalkFault::SecondSetup(11)),
        ),
        // What is not visited has no fault.
        (
            "#2=WORKPLAN('main',(#30),$,#5,$);#30=IF_STATEMENT('',#40,#4,#11);#40=AND_EXPRESSION(());#11=WORKPLAN('',(),$,#6,$);",
            Ok(&[4]),
        ),
        // The first fault decides.
        (
            "#2=WORKPLAN('main',(#30,#11),$,#5,$);#30=IF_STATEMENT('',#31,#4,$);#31=COMPARISON_LESS(#32,#32);#32=NC_VARIABLE('x',$);#11=WORKPLAN('',(),$,#6,$);",
            Err(WalkFault::Unset(32)),
        ),
        (
            "#2=WORKPLAN('main',(#11,#30),$,#5,$);#30=IF_STATEMENT('',#31,#4,$);#31=COMPARISON_LESS(#32,#32);#32=NC_VARIABLE('x',$);#11=WORKPLAN('',(),$,#6,$);",
            Err(WalkFault::SecondSetup(11)),
        ),
        // A name is compared byte by byte.
        (
            "#2=WORKPLAN('main',(#30),$,#5,$);#30=IF_STATEMENT('',#31,#4,$);#31=COMPARISON_LESS(#32,#32);#32=NC_VARIABLE('Depth',$);",
            Err(WalkFault::Unset(32)),
        ),
        (
            "#2=WORKPLAN('main',(#30),$,#5,$);#30=IF_STATEMENT('',#31,#4,$);#31=COMPARISON_EQUAL(#32,#33);#32=NC_VARIABLE('depth',7.);#33=NC_CONSTANT('',-0.001);",
            Ok(&[4]),
        ),
    ];
    for (instances, wanted) in rows {
        assert!(rt; gives(rt.alloc(), instances, None, wanted)?, "{instances}");
    }
    let checked = checked(rt.alloc(), "#2=WORKPLAN('main',(),$,#5,$);")?;
    assert_eq!(rt; main_workplan(&checked), 2);
    assert_eq!(rt; main_setup(&checked), Some(5));
    Ok(())
}

#[test]
fn branches_by_their_conditions(rt: HostRuntime) -> Result<(), Fail> {
    // A condition, the value of the variable, and whether the condition holds; or the fault of an operand.
    let rows = [
        ("#31", None, Err(WalkFault::Unset(32))),
        ("#31", Some(2_000), Ok(true)),
        ("#31", Some(1_000), Ok(false)),
        ("#36", None, Ok(false)),
        ("#36", Some(1_001), Ok(true)),
        ("#40", None, Ok(true)),
        ("#41", None, Ok(false)),
        ("#42", None, Ok(true)),
        ("#43", None, Ok(true)),
        ("#44", None, Ok(false)),
        ("#45", None, Ok(false)),
        ("#46", None, Ok(true)),
        // Operands behind the one that decides are visited too.
        ("#47", None, Err(WalkFault::Unset(32))),
        ("#47", Some(0), Ok(true)),
        ("#48", None, Err(WalkFault::Unset(32))),
        ("#48", Some(2_000), Ok(false)),
    ];
    for (condition, deep, wanted) in rows {
        let instances = format!(in rt.alloc();
            "{CONDITIONS}#2=WORKPLAN('main',(#30),$,#5,$);#30=IF_STATEMENT('',{condition},#4,#10);#10=WORKPLAN('',(#4,#4),$,$,$);"
        )?;
        let steps: Result<&[u32], WalkFault> = match wanted {
            Ok(true) => Ok(&[4]),
            Ok(false) => Ok(&[4, 4]),
            Err(fault) => Err(fault),
        };
        assert!(rt;
            gives(rt.alloc(), instances.as_str(), deep, steps)?,
            "{condition}"
        );
    }
    Ok(())
}

#[test]
fn comparisons_of_values(rt: HostRuntime) -> Result<(), Fail> {
    // A comparison, and whether it holds of -1 and 1, of 1 and 1, and of 2 and 1.
    let rows = [
        ("COMPARISON_EQUAL", [false, true, false]),
        ("COMPARISON_NOT_EQUAL", [true, false, true]),
        ("COMPARISON_LESS", [true, false, false]),
        ("COMPARISON_LESS_EQUAL", [true, true, false]),
        ("COMPARISON_GREATER", [false, false, true]),
        ("COMPARISON_GREATER_EQUAL", [false, true, true]),
    ];
    for (name, holds) in rows {
        for (value, wanted) in ["#49", "#33", "#34"].into_iter().zip(holds) {
            let instances = format!(in rt.alloc();
                "{CONDITIONS}#2=WORKPLAN('main',(#30),$,#5,$);#30=IF_STATEMENT('',#50,#4,$);#50={name}({value},#33);"
            )?;
            let steps: Result<&[u32], WalkFault> = if wanted { Ok(&[4]) } else { Ok(&[]) };
            assert!(rt;
                gives(rt.alloc(), instances.as_str(), None, steps)?,
                "{name} {value}"
            );
        }
    }
    Ok(())
}

/// A workplan of some elements, all of them one instance.
fn workplan(alloc: Global, number: u32, element: u32, count: usize) -> Result<String, Fail> {
    let mut text = format!(in alloc; "#{number}=WORKPLAN('',(")?;
    for place in 0..count {
        let separator = if place == 0 { "" } else { "," };
        text.push_str(format!(in alloc; "{separator}#{element}")?.as_str())?;
    }
    text.push_str("),$,$,$);")?;
    Ok(text)
}

#[test]
fn walks_that_are_too_long(rt: HostRuntime) -> Result<(), Fail> {
    let alloc = rt.alloc();
    // How many nested workplans, how many elements each has, and whether that is too much: first of steps, then of visits.
    let rows = [
        (4, 10, 100, false),
        (4, 7, 143, true),
        (12, 99, 100, false),
        (12, 100, 99, true),
    ];
    for (element, outer, inner, is_long) in rows {
        let main = workplan(alloc, 2, 11, outer)?;
        let nested = workplan(alloc, 11, element, inner)?;
        let instances = format!(in alloc; "{main}{nested}#12=WORKPLAN('',(),$,$,$);")?;
        let checked = checked(alloc, instances.as_str())?;
        let told = executed(alloc, &checked, &[]);
        let steps = if element == 4 { outer * inner } else { 0 };
        let is_right = match told {
            Ok(found) => !is_long && found.len() == steps,
            Err(fault) => is_long && fault == WalkFault::TooManySteps,
        };
        assert!(rt; is_right, "{element} {outer} {inner}");
    }
    // Forty workplans, each naming the next one twice.
    let mut doubled = workplan(alloc, 2, 101, 2)?;
    for number in 101..140 {
        doubled.push_str(workplan(alloc, number, number + 1, 2)?.as_str())?;
    }
    doubled.push_str("#140=WORKPLAN('',(),$,$,$);")?;
    assert!(rt; gives(alloc, doubled.as_str(), None, Err(WalkFault::TooManySteps))?);
    Ok(())
}
