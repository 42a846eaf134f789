//! The models of small files.

use crate::fixtures::file_text;
use sn_entity::{EntFault, RowId, Value};
use sn_model::{Entry, ModelFault, build};
use sn_p21::read_file;
use std::test::Fail;

/// The file with these instances.
macro_rules! file {
    ($rt:ident, $instances:expr) => {{
        let text = file_text($rt.alloc(), $instances)?;
        let Ok(file) = read_file($rt.alloc(), text.as_bytes()) else {
            return Err(Fail::from("not read"));
        };
        file
    }};
}

#[test]
fn files_without_one_project_are_refused(rt: HostRuntime) -> Result<(), Fail> {
    let rows = [
        ("", ModelFault::NoProject),
        ("#1=WORKPLAN();", ModelFault::NoProject),
        ("#1=(PROJECT()WORKPLAN());", ModelFault::NoProject),
        (
            "#7=PROJECT();#5=OWN();#3=PROJECT();#9=PROJECT();",
            ModelFault::TwoProjects(3),
        ),
    ];
    for (instances, fault) in rows {
        let file = file!(rt, instances);
        match build(rt.alloc(), &file) {
            Ok(_) => return Err(Fail::from("a model")),
            Err(told) => assert_eq!(rt; told, fault),
        }
    }
    Ok(())
}

#[test]
fn instances_are_kept_by_their_rows(rt: HostRuntime) -> Result<(), Fail> {
    let file = file!(
        rt,
        "#9=PROJECT('',#4,(#2));#1=DIRECTION('');#2=BLOCK('',#1,0.,1.,1.);#3=PLANE('',1.);#5=OWN();#6=(PLANE('',#1)OWN());"
    );
    let Ok(model) = build(rt.alloc(), &file) else {
        return Err(Fail::from("no model"));
    };
    assert_eq!(rt; model.project(), 9);
    let Some(Entry::Typed(fields)) = model.get(9) else {
        return Err(Fail::from("not typed"));
    };
    assert_eq!(rt; fields.row, RowId::Project);
    assert!(rt; matches!(fields.values.get(0), Some(Value::One(4))));
    assert!(rt; matches!(model.get(1), Some(Entry::Bad(EntFault::Count(1, 2, 1)))));
    assert!(rt; matches!(model.get(2), Some(Entry::Bad(EntFault::Range(2, 3)))));
    assert!(rt; matches!(model.get(3), Some(Entry::Bad(EntFault::KindAt(3, 2)))));
    assert!(rt; matches!(model.get(5), Some(Entry::Stranger)));
    assert!(rt; matches!(model.get(6), Some(Entry::Stranger)));
    assert!(rt; model.get(4).is_none());
    let rows = [
        (9, Some(RowId::Project)),
        (1, Some(RowId::Direction)),
        (5, None),
        (6, None),
        (4, None),
    ];
    for (number, row) in rows {
        assert_eq!(rt; model.row(number), row);
    }
    Ok(())
}
