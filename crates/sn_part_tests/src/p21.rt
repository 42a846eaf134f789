//! Texts that are read, and texts that are refused at their places.

use sn_p21::{Bytes, Entity, Instances, Param, read_file, write_file, write_instances};
use std::alloc::Global;
use std::test::Fail;

const OPENING: &str = "ISO-10303-21;HEADER;FILE_DESCRIPTION((''),'1');FILE_NAME();FILE_SCHEMA(());";

/// The canonical text of the opening.
const CANONICAL_OPENING: &str =
    "ISO-10303-21;\nHEADER;\nFILE_DESCRIPTION((''),'1');\nFILE_NAME();\nFILE_SCHEMA(());\n";

/// The text of a file with these further header entities and these instances.
fn text(alloc: Global, header: &str, rows: &str) -> Result<String, Fail> {
    Ok(format!(in alloc; "{OPENING}{header}ENDSEC;DATA;{rows}ENDSEC;END-ISO-10303-21;")?)
}

/// How many header entities and how many instances are read of the text.
fn counts(alloc: Global, text: &[u8]) -> Result<(usize, usize), Fail> {
    let Ok(file) = read_file(alloc, text) else {
        return Err(Fail::from("not read"));
    };
    Ok((file.header.len(), file.instances.len()))
}

#[test]
fn texts_are_read(rt: HostRuntime) -> Result<(), Fail> {
    let rows = [
        ("", "", 3, 0),
        ("OWN();", "#1=A();", 4, 1),
        (
            "",
            "#02 = A ( 1 , -2. , 'x''y' ) ; /* c */\n#1=(A());",
            3,
            2,
        ),
        ("", "#7=(A($)B(*,.F.,\"0F\"));", 3, 1),
        ("", "#7=ENDSEC((1),#9,T(()));", 3, 1),
    ];
    for (header, instances, entities, count) in rows {
        let text = text(rt.alloc(), header, instances)?;
        assert_eq!(rt; counts(rt.alloc(), text.as_bytes())?, (entities, count));
    }
    Ok(())
}

/// Whether the first instance is `#5`, and `#4` is found by its number.
fn are_numbered(instances: &Instances) -> bool {
    let Some(first) = instances.at(0) else {
        return false;
    };
    let Some(second) = instances.get(4) else {
        return false;
    };
    first.number == 5 && second.number == 4
}

/// Whether the first parameter of the entity is this string.
fn begins_with(entity: &Entity, text: &[u8]) -> bool {
    let Some(Param::Text(value)) = entity.params.get(0) else {
        return false;
    };
    value.as_slice() == text
}

/// Whether the first instance is one entity of this keyword whose first parameter is this string.
fn is_first(instances: &Instances, keyword: &[u8], text: &[u8]) -> bool {
    let Some(first) = instances.at(0) else {
        return false;
    };
    let Some(entity) = first.parts.get(0) else {
        return false;
    };
    entity.keyword.as_slice() == keyword && begins_with(entity, text)
}

/// The lines of the instances of the text that is read, where they are those of `parameters_are_read`.
fn lines(alloc: Global, text: &[u8]) -> Result<Bytes, Fail> {
    let Ok(file) = read_file(alloc, text) else {
        return Err(Fail::from("not read"));
    };
    lines_of(alloc, &file.instances)
}

fn lines_of(alloc: Global, instances: &Instances) -> Result<Bytes, Fail> {
    if !are_numbered(instances) || !is_first(instances, b"A", b"x'y") {
        return Err(Fail::from("other instances"));
    }
    let Ok(lines) = write_instances(alloc, instances) else {
        return Err(Fail::from("not written"));
    };
    Ok(lines)
}

#[test]
fn parameters_are_read(rt: HostRuntime) -> Result<(), Fail> {
    let text = text(rt.alloc(), "", "#5=A('x''y',T(1.5));#4=B();")?;
    let lines = lines(rt.alloc(), text.as_bytes())?;
    assert_eq!(rt;
        lines.as_slice(),
        b"#5=A('x''y',T(1.5));\n#4=B();\n".as_slice()
    );
    Ok(())
}

/// What is written of the file that is read.
fn written(alloc: Global, text: &[u8]) -> Result<Bytes, Fail> {
    let Ok(file) = read_file(alloc, text) else {
        return Err(Fail::from("not read"));
    };
    let Ok(written) = write_file(alloc, &file) else {
        return Err(Fail::from("not written"));
    };
    Ok(written)
}

/// Further header entities and instances, and the lines in which each of the two is written.
const WRITTEN: &[(&str, &str, &str, &str)] = &[
    ("", "", "", ""),
    (
        "OWN ( 'a' ) ;",
        "#9=B();#2=A(1,+2,-3.5E+1);",
        "OWN('a');\n",
        "#9=B();\n#2=A(1,+2,-3.5E+1);\n",
    ),
    (
        "",
        "#1=(A($)B(T(1.),\"0F\",(),#7,*));#3=( A(1) ) ;",
        "",
        "#1=(A($)B(T(1.),\"0F\",(),#7,*));\n#3=A(1);\n",
    ),
    (
        "",
        "#1=A('it''s','','''','/*',' \r\n\t;','\u{e9}');",
        "",
        "#1=A('it''s','','''','/*',' \r\n\t;','\u{e9}');\n",
    ),
    (
        "",
        "#1=A( ( ( ) , ( 1 , ( 2 ) ) ) , $ );",
        "",
        "#1=A(((),(1,(2))),$);\n",
    ),
    (
        "",
        "#1=A( T ( U ( ( .F. ) ) ) , * );",
        "",
        "#1=A(T(U((.F.))),*);\n",
    ),
    (
        "",
        "#1=A(\"0\", \"3FA09\", .T., ._A1.);",
        "",
        "#1=A(\"0\",\"3FA09\",.T.,._A1.);\n",
    ),
    (
        "!A();",
        "#1=!A(!B(2.E1));#2=_A_1();#3=ENDSEC();#4=DATA();",
        "!A();\n",
        "#1=!A(!B(2.E1));\n#2=_A_1();\n#3=ENDSEC();\n#4=DATA();\n",
    ),
    (
        "",
        "#007=A(#0008,#7);#4294967295=A(00);",
        "",
        "#7=A(#8,#7);\n#4294967295=A(00);\n",
    ),
    (
        "/* ; */",
        "/**/#1/*'*/=\tA\n(1/* * / */,/**/2)\r;\x0c/* #2=B(); */",
        "",
        "#1=A(1,2);\n",
    ),
];

/// What is written of the file with these further header entities and these instances.
fn canonical(alloc: Global, header: &str, instances: &str) -> Result<Bytes, Fail> {
    let text = text(alloc, header, instances)?;
    written(alloc, text.as_bytes())
}

/// The canonical text with these lines.
fn canonical_text(alloc: Global, header: &str, lines: &str) -> Result<String, Fail> {
    Ok(format!(in alloc;
        "{CANONICAL_OPENING}{header}ENDSEC;\nDATA;\n{lines}ENDSEC;\nEND-ISO-10303-21;\n"
    )?)
}

#[test]
fn texts_are_written(rt: HostRuntime) -> Result<(), Fail> {
    for (header, instances, header_lines, lines) in WRITTEN {
        let expected = canonical_text(rt.alloc(), header_lines, lines)?;
        let canonical = canonical(rt.alloc(), header, instances)?;
        assert_eq!(rt; canonical.as_slice(), expected.as_bytes());
        let again = written(rt.alloc(), canonical.as_slice())?;
        assert_eq!(rt; again.as_slice(), canonical.as_slice());
    }
    Ok(())
}

/// Data sections, and the lines in which they are written.
const SECTIONS: &[(&str, &str)] = &[
    ("DATA;ENDSEC;", "DATA;\nENDSEC;\n"),
    (
        "DATA;ENDSEC;DATA();ENDSEC;",
        "DATA;\nENDSEC;\nDATA();\nENDSEC;\n",
    ),
    (
        "DATA ( 'a' , ( ) ) ; #2=A(#1); #3=(A()) ; ENDSEC ; DATA('b',('S'));#1=B();ENDSEC;",
        "DATA('a',());\n#2=A(#1);\n#3=A();\nENDSEC;\nDATA('b',('S'));\n#1=B();\nENDSEC;\n",
    ),
    (
        "DATA;#1=A();ENDSEC;DATA;ENDSEC;DATA(T(#9));#2=A();#3=A();ENDSEC;",
        "DATA;\n#1=A();\nENDSEC;\nDATA;\nENDSEC;\nDATA(T(#9));\n#2=A();\n#3=A();\nENDSEC;\n",
    ),
    (DEEP_SECTION, DEEP_SECTION_LINES),
];

/// A section whose list has 64 lists open.
const DEEP_SECTION: &str = concat!(
    "DATA((((((((((((((((((((((((((((((((((((((((((((((((((((((((((((((((",
    "))))))))))))))))))))))))))))))))))))))))))))))))))))))))))))))));ENDSEC;"
);

const DEEP_SECTION_LINES: &str = concat!(
    "DATA((((((((((((((((((((((((((((((((((((((((((((((((((((((((((((((((",
    "))))))))))))))))))))))))))))))))))))))))))))))))))))))))))))))));\nENDSEC;\n"
);

#[test]
fn sections_are_written(rt: HostRuntime) -> Result<(), Fail> {
    for (sections, lines) in SECTIONS {
        let text = format!(in rt.alloc(); "{OPENING}ENDSEC;{sections}END-ISO-10303-21;")?;
        let expected = format!(in rt.alloc();
            "{CANONICAL_OPENING}ENDSEC;\n{lines}END-ISO-10303-21;\n"
        )?;
        let canonical = written(rt.alloc(), text.as_bytes())?;
        assert_eq!(rt; canonical.as_slice(), expected.as_bytes());
        let again = written(rt.alloc(), canonical.as_slice())?;
        assert_eq!(rt; again.as_slice(), canonical.as_slice());
    }
    Ok(())
}

/// A sample part up to its first 13 instances, and what follows them.
const PART: &str = "ISO-10303-21;
HEADER;
FILE_DESCRIPTION(('one hole'),'1');
FILE_NAME('one.stp','2024-01-01',('a'),('b'),'','','');
FILE_SCHEMA(('MACHINING_SCHEMA','MILLING_SCHEMA'));
ENDSEC;
DATA;
#1=PROJECT('one',#2,(#3),$,$,$);
#2=WORKPLAN('main',(#4),$,#5,$);
#3=WORKPIECE('block',$,$,$,$,#6,());
#4=MACHINING_WORKINGSTEP('hole',#7,#8,#9,$);
#5=SETUP('setup',$,#7,(#10));
#6=BLOCK('raw',#11,20.,20.,10.);
#7=PLANE('security',#12);
#8=ROUND_HOLE('hole',#3,(#9),#13,#14,#15,$,#16);
#9=DRILLING($,$,'plunge',$,$,#17,#18,$,$,$,$,$,$,$);
#10=WORKPIECE_SETUP(#3,#11,$,$,());
#11=AXIS2_PLACEMENT_3D('origin',#19,$,$);
#12=AXIS2_PLACEMENT_3D('security',#20,$,$);
#13=AXIS2_PLACEMENT_3D('hole',#21,$,$);
";

const PART_REST: &str = "#14=PLANE('depth',#22);
#15=TOLERANCED_LENGTH_MEASURE(8.,$);
#16=FLAT_HOLE_BOTTOM();
#17=CUTTING_TOOL('mill 8',#23,(),80.,$,$);
#18=MILLING_TECHNOLOGY(0.005,.TCP.,$,-12.,$,.F.,.F.,.F.,$);
#19=CARTESIAN_POINT('',(0.,0.,0.));
#20=CARTESIAN_POINT('',(0.,0.,20.));
#21=CARTESIAN_POINT('',(10.,10.,10.));
#22=AXIS2_PLACEMENT_3D('depth',#24,$,$);
#23=ENDMILL(#25,4,.RIGHT.,.F.,$,$);
#24=CARTESIAN_POINT('',(0.,0.,-6.));
#25=MILLING_TOOL_DIMENSION(8.,$,$,20.,0.,$,$);
ENDSEC;
END-ISO-10303-21;
";

/// How many instances each of the sections of the text has.
fn section_counts(alloc: Global, text: &[u8]) -> Result<Vec<u32>, Fail> {
    let Ok(file) = read_file(alloc, text) else {
        return Err(Fail::from("not read"));
    };
    let mut counts = Vec::new(alloc);
    for section in file.sections.as_slice() {
        counts.push(section.count)?;
    }
    Ok(counts)
}

#[test]
fn a_part_of_two_sections(rt: HostRuntime) -> Result<(), Fail> {
    let between = "ENDSEC;\nDATA('b',('S'));\n";
    let text = format!(in rt.alloc(); "{PART}{between}{PART_REST}")?;
    assert_eq!(rt;
        section_counts(rt.alloc(), text.as_bytes())?.as_slice(),
        [13, 12].as_slice()
    );
    assert_eq!(rt;
        written(rt.alloc(), text.as_bytes())?.as_slice(),
        text.as_bytes()
    );
    let front = format!(in rt.alloc(); "{PART}{between}")?;
    let again = format!(in rt.alloc(); "#1=PROJECT('one',#2,(#3),$,$,$);{PART_REST}")?;
    let expected = format!(in rt.alloc(); "Twice(1, {})", front.len())?;
    assert_eq!(rt;
        told(rt.alloc(), &front, &again)?.as_str(),
        expected.as_str()
    );
    Ok(())
}

/// A text up to its instances, of 77 bytes.
const FRONT: &str = "ISO-10303-21;HEADER;FILE_DESCRIPTION();FILE_NAME();FILE_SCHEMA();ENDSEC;DATA;";

/// The same with an instance up to its 64th list, of 145 bytes.
const DEEP: &str = concat!(
    "ISO-10303-21;HEADER;FILE_DESCRIPTION();FILE_NAME();FILE_SCHEMA();ENDSEC;DATA;",
    "#1=A(((((((((((((((((((((((((((((((((((((((((((((((((((((((((((((((("
);

/// The same with a list of its first section, up to its 64th list, of 140 bytes.
const LISTED: &str = concat!(
    "ISO-10303-21;HEADER;FILE_DESCRIPTION();FILE_NAME();FILE_SCHEMA();ENDSEC;DATA",
    "(((((((((((((((((((((((((((((((((((((((((((((((((((((((((((((((("
);

/// The fault of the text of two parts.
fn told(alloc: Global, front: &str, rest: &str) -> Result<String, Fail> {
    let text = format!(in alloc; "{front}{rest}")?;
    let Err(fault) = read_file(alloc, text.as_bytes()) else {
        return Err(Fail::from("read"));
    };
    Ok(format!(in alloc; "{fault:?}")?)
}

/// The two parts of a text, and its fault.
const REFUSED: &[(&str, &str, &str)] = &[
    ("", "", "Unexpected(0)"),
    ("ISO-10303-21; ", "", "Unexpected(14)"),
    (
        "ISO-10303-21;HEADER;FILE_DESCRIPTION(('a",
        "",
        "Lex(OpenString(38))",
    ),
    (
        "ISO-10303-21;HEADER;FILE_DESCRIPTION();FILE_NAME();",
        "ENDSEC;",
        "Unexpected(51)",
    ),
    (
        "ISO-10303-21;HEADER;FILE_DESCRIPTION();FILE_NAME();FILE_SCHEMA();",
        "DATA;",
        "Unexpected(69)",
    ),
    (FRONT, "#1=A(1,);", "Unexpected(84)"),
    (FRONT, "#1=A(T(1,2));", "Unexpected(85)"),
    (FRONT, "#1=( );", "Unexpected(82)"),
    (FRONT, "#1=A();#01", "Twice(1, 84)"),
    (FRONT, "#1=A();#01=B();", "Twice(1, 84)"),
    (FRONT, "ENDSEC;END-ISO-10303-21; ;", "Unexpected(102)"),
    (FRONT, "ENDSEC DATA;", "Unexpected(84)"),
    (FRONT, "ENDSEC;DATA", "Unexpected(88)"),
    (FRONT, "ENDSEC;ENDSEC;", "Unexpected(84)"),
    (FRONT, "#1=A();ENDSEC;DATA;#2=A();#1=B();", "Twice(1, 103)"),
    (LISTED, "(", "TooDeep(140)"),
    (LISTED, "A(", "TooDeep(141)"),
    (DEEP, "(", "TooDeep(145)"),
    (DEEP, "A(", "TooDeep(146)"),
    (DEEP, "A)", "Unexpected(146)"),
    (DEEP, "A", "Unexpected(146)"),
];

#[test]
fn texts_are_refused(rt: HostRuntime) -> Result<(), Fail> {
    for (front, rest, expected) in REFUSED {
        let told = told(rt.alloc(), front, rest)?;
        assert_eq!(rt; told.as_str(), *expected);
    }
    Ok(())
}
