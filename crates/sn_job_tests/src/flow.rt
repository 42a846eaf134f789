//! Jobs of the sample part with one hole, and of parts that differ from it in a few instances.

use sn_flow::{JobFault, job};
use sn_frame::FrameFault;
use sn_geom::Pt3;
use sn_outline::{Job, Shape, StepJob};
use sn_part_tests::fixtures::{Change, changed_text, checked_of};
use sn_refs::Checked;
use sn_words::{Opts, Words, values};
use std::alloc::Global;
use std::test::Fail;

/// The instances of the sample part.
const INSTANCES: [(u32, &str); 25] = [
    (1, "PROJECT('one',#2,(#3),$,$,$)"),
    (2, "WORKPLAN('main',(#4),$,#5,$)"),
    (3, "WORKPIECE('block',$,$,$,$,#6,())"),
    (4, "MACHINING_WORKINGSTEP('hole',#7,#8,#9,$)"),
    (5, "SETUP('setup',$,#7,(#10))"),
    (6, "BLOCK('raw',#11,20.,20.,10.)"),
    (7, "PLANE('security',#12)"),
    (8, "ROUND_HOLE('hole',#3,(#9),#13,#14,#15,$,#16)"),
    (9, "DRILLING($,$,'plunge',$,$,#17,#18,$,$,$,$,$,$,$)"),
    (10, "WORKPIECE_SETUP(#3,#11,$,$,())"),
    (11, "AXIS2_PLACEMENT_3D('origin',#19,$,$)"),
    (12, "AXIS2_PLACEMENT_3D('security',#20,$,$)"),
    (13, "AXIS2_PLACEMENT_3D('hole',#21,$,$)"),
    (14, "PLANE('depth',#22)"),
    (15, "TOLERANCED_LENGTH_MEASURE(8.,$)"),
    (16, "FLAT_HOLE_BOTTOM()"),
    (17, "CUTTING_TOOL('mill 8',#23,(),80.,$,$)"),
    (18, "MILLING_TECHNOLOGY(0.005,.TCP.,$,-12.,$,.F.,.F.,.F.,$)"),
    (19, "CARTESIAN_POINT('',(0.,0.,0.))"),
    (20, "CARTESIAN_POINT('',(0.,0.,20.))"),
    (21, "CARTESIAN_POINT('',(10.,10.,10.))"),
    (22, "AXIS2_PLACEMENT_3D('depth',#24,$,$)"),
    (23, "ENDMILL(#25,4,.RIGHT.,.F.,$,$)"),
    (24, "CARTESIAN_POINT('',(0.,0.,-6.))"),
    (25, "MILLING_TOOL_DIMENSION(8.,$,$,20.,0.,$,$)"),
];

/// The sample part with these changes.
fn part(alloc: Global, changes: &[Change]) -> Result<Checked, Fail> {
    let text = changed_text(alloc, &INSTANCES, changes)?;
    checked_of(alloc, text.as_bytes())
}

/// The words of a command, with a raw box where it is not empty.
fn command(alloc: Global, raw: &str) -> Result<Words, Fail> {
    let mut words = Words::new(alloc);
    for word in ["compile", "P", "--cell", "1000"] {
        words.push(word.as_bytes())?;
    }
    if !raw.is_empty() {
        words.push("--raw".as_bytes())?;
        words.push(raw.as_bytes())?;
    }
    Ok(words)
}

/// What the words of a command ask for.
fn options(alloc: Global, raw: &str) -> Result<Opts, Fail> {
    let words = command(alloc, raw)?;
    match values(alloc, &words) {
        Ok(options) => Ok(options),
        Err(_) => Err(Fail::from("not the words of a command")),
    }
}

fn circle_text(alloc: Global, s: &StepJob) -> Result<String, Fail> {
    let Shape::Circle(centre, diameter) = &s.outline.shape else {
        return Err(Fail::from("no hole"));
    };
    let (x, y) = (centre.x.get(), centre.y.get());
    Ok(format!(in alloc; "#{} #{} circle {x},{y} {diameter}", s.ws, s.feature)?)
}

fn heights_text(alloc: Global, s: &StepJob) -> Result<String, Fail> {
    Ok(format!(in alloc;
        "top {} floor {} {:?} corner {}",
        s.top, s.floor, s.bottom, s.corner
    )?)
}

fn cut_text(alloc: Global, s: &StepJob) -> Result<String, Fail> {
    Ok(format!(in alloc;
        "allowances {} {} depths {} {}",
        s.side, s.under, s.axial, s.radial
    )?)
}

fn tool_text(alloc: Global, s: &StepJob) -> Result<String, Fail> {
    let (d, e) = (s.body.d, s.body.e);
    Ok(format!(in alloc;
        "tool {} {d} {e} feed {} speed {} {:?}",
        s.tool, s.feed, s.speed, s.way
    )?)
}

/// Adds a blank and a piece.
fn push(text: &mut String, piece: String) -> Result<(), Fail> {
    text.push(' ')?;
    text.push_str(piece.as_str())?;
    Ok(())
}

/// Adds the text of a step.
fn push_step(alloc: Global, text: &mut String, s: &StepJob) -> Result<(), Fail> {
    text.push(';')?;
    push(text, circle_text(alloc, s)?)?;
    push(text, heights_text(alloc, s)?)?;
    push(text, cut_text(alloc, s)?)?;
    push(text, tool_text(alloc, s)?)
}

/// What stands before the tools of a job.
fn box_text(alloc: Global, job: &Job) -> Result<String, Fail> {
    let low = corner_text(alloc, &job.low())?;
    let high = corner_text(alloc, &job.high())?;
    Ok(format!(in alloc;
        "{} from {low} to {high} security {} tools",
        job.pitch(),
        job.sec()
    )?)
}

fn corner_text(alloc: Global, p: &Pt3) -> Result<String, Fail> {
    Ok(format!(in alloc; "{},{},{}", p.x.get(), p.y.get(), p.z.get())?)
}

fn push_tool(alloc: Global, text: &mut String, tool: u32) -> Result<(), Fail> {
    push(text, format!(in alloc; "#{}", tool)?)
}

/// A job on one line.
fn job_text(alloc: Global, job: &Job) -> Result<String, Fail> {
    let mut text = box_text(alloc, job)?;
    for tool in job.tools() {
        push_tool(alloc, &mut text, *tool)?;
    }
    for step in job.steps() {
        push_step(alloc, &mut text, step)?;
    }
    Ok(text)
}

/// The job of the sample part with these changes, on one line.
fn told(alloc: Global, changes: &[Change], raw: &str) -> Result<String, Fail> {
    let checked = part(alloc, changes)?;
    let options = options(alloc, raw)?;
    told_of(alloc, &checked, &options)
}

fn told_of(alloc: Global, checked: &Checked, options: &Opts) -> Result<String, Fail> {
    match job(alloc, checked, options) {
        Ok(made) => job_text(alloc, &made),
        Err(_) => Err(Fail::from("no job")),
    }
}

/// Why there is no job of the sample part with these changes.
fn refusal(alloc: Global, changes: &[Change], raw: &str) -> Result<JobFault, Fail> {
    let checked = part(alloc, changes)?;
    let options = options(alloc, raw)?;
    match job(alloc, &checked, &options) {
        Ok(_) => Err(Fail::from("a job")),
        Err(fault) => Ok(fault),
    }
}

const NO_STEPS: Change = (2, "WORKPLAN('main',(),$,#5,$)");

const NO_BLOCK: Change = (3, "WORKPIECE('block',$,$,$,$,$,())");

const LOW_SECURITY: Change = (20, "CARTESIAN_POINT('',(0.,0.,9.9999))");

const SKEW_WORKPIECE: Change = (
    10,
    "WORKPIECE_SETUP(#3,#30,$,$,());#30=AXIS2_PLACEMENT_3D('',#19,#31,$);#31=DIRECTION('',(1.,1.,0.))",
);

const SKEW_BLOCK: Change = (
    6,
    "BLOCK('raw',#32,20.,20.,10.);#32=AXIS2_PLACEMENT_3D('',#19,#33,$);#33=DIRECTION('',(0.,1.,1.))",
);

/// Changes, a raw box where it is not empty, and the job.
const JOBS: [(&[Change], &str, &str); 7] = [
    (
        &[],
        "",
        "10000 from 0,0,0 to 200000,200000,100000 security 200000 tools #17; #4 #8 circle 100000,100000 80000 top 100000 floor 40000 Flat corner 0 allowances 0 0 depths 40000000 40000 tool 1 80000 0 feed 300 speed 720 Drill",
    ),
    // the workpiece stands elsewhere, and its raw box with it
    (
        &[(10, "WORKPIECE_SETUP(#3,#13,$,$,())")],
        "",
        "10000 from 100000,100000,100000 to 300000,300000,200000 security 200000 tools #17; #4 #8 circle 200000,200000 80000 top 200000 floor 140000 Flat corner 0 allowances 0 0 depths 40000000 40000 tool 1 80000 0 feed 300 speed 720 Drill",
    ),
    // a given box in place of the BLOCK, which then has no fault
    (
        &[SKEW_BLOCK, NO_STEPS],
        "-5,0,-1.5,30,20,12",
        "10000 from -50000,0,-15000 to 300000,200000,120000 security 200000 tools",
    ),
    (
        &[NO_BLOCK, NO_STEPS],
        "0,0,0,1,2,3",
        "10000 from 0,0,0 to 10000,20000,30000 security 200000 tools",
    ),
    // the BLOCK of the rawpiece, before that of the workpiece
    (
        &[
            NO_STEPS,
            (
                3,
                "WORKPIECE('block',$,$,#30,$,#6,());#30=WORKPIECE('',$,$,$,$,#31,());#31=BLOCK('',#11,7.,8.,9.)",
            ),
        ],
        "",
        "10000 from 0,0,0 to 70000,80000,90000 security 200000 tools",
    ),
    // the raw top, where no security plane is named
    (
        &[NO_STEPS, (5, "SETUP('setup',$,$,(#10))")],
        "",
        "10000 from 0,0,0 to 200000,200000,100000 security 100000 tools",
    ),
    // tools are numbered by their first uses, and the highest security plane counts
    (
        &[(
            2,
            "WORKPLAN('main',(#30,#4),$,#5,$);#30=MACHINING_WORKINGSTEP('',#33,#8,#31,$);#31=DRILLING($,$,'',$,$,#32,#18,$,$,$,$,$,$,$);#32=CUTTING_TOOL('',#23,(),6.,$,$);#33=PLANE('',#34);#34=AXIS2_PLACEMENT_3D('',#35,$,$);#35=CARTESIAN_POINT('',(0.,0.,25.))",
        )],
        "",
        "10000 from 0,0,0 to 200000,200000,100000 security 250000 tools #32 #17; #30 #8 circle 100000,100000 80000 top 100000 floor 40000 Flat corner 0 allowances 0 0 depths 40000000 40000 tool 1 80000 0 feed 300 speed 720 Drill; #4 #8 circle 100000,100000 80000 top 100000 floor 40000 Flat corner 0 allowances 0 0 depths 40000000 40000 tool 2 80000 0 feed 300 speed 720 Drill",
    ),
];

#[test]
fn jobs(rt: HostRuntime) -> Result<(), Fail> {
    for (changes, raw, wanted) in JOBS {
        let told = told(rt.alloc(), changes, raw)?;
        assert_eq!(rt; told.as_str(), wanted);
    }
    Ok(())
}

/// Changes, a raw box where it is not empty, and the refusal.
const REFUSALS: [(&[Change], &str, JobFault); 9] = [
    (
        &[
            (
                2,
                "WORKPLAN('main',(#34),$,#5,$);#34=WORKPLAN('',(),$,#35,$);#35=SETUP('',$,#7,())",
            ),
            SKEW_WORKPIECE,
        ],
        "",
        JobFault::SecondSetup(34),
    ),
    (
        &[SKEW_WORKPIECE, SKEW_BLOCK],
        "",
        JobFault::Frame(FrameFault::Skew(30)),
    ),
    (
        &[SKEW_WORKPIECE],
        "0,0,0,1,2,3",
        JobFault::Frame(FrameFault::Skew(30)),
    ),
    (
        &[SKEW_BLOCK, LOW_SECURITY],
        "",
        JobFault::Frame(FrameFault::Skew(32)),
    ),
    (
        &[(6, "BLOCK('raw',#12,20.,20.,1990.0002)"), LOW_SECURITY],
        "",
        JobFault::Frame(FrameFault::OutOfRange(12)),
    ),
    (&[NO_BLOCK, LOW_SECURITY], "", JobFault::RawUnknown),
    (
        &[LOW_SECURITY, (15, "TOLERANCED_LENGTH_MEASURE(0.,$)")],
        "",
        JobFault::SecLow,
    ),
    (&[], "0,0,0,20,20,20.0001", JobFault::SecLow),
    (
        &[(17, "CUTTING_TOOL('mill 8',#23,(),5.9999,$,$)")],
        "",
        JobFault::ShortTool(4),
    ),
];

#[test]
fn refusals_in_their_order(rt: HostRuntime) -> Result<(), Fail> {
    for (changes, raw, wanted) in REFUSALS {
        assert_eq!(rt; refusal(rt.alloc(), changes, raw)?, wanted);
    }
    Ok(())
}
