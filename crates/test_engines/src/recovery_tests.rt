//! A recovery as a plan, and what both engines do with a log on a disk, one call at a time.
use crate::checks::{disk_with, done, holds, page_size, present, same};
use crashdisk::{File, ModelDisk};
use recovery::{finish, scan_log};
use sqplan::{Plan, Recovery, Step};
use sqwal::{Order, Scan, WalHeader};
use std::process::Abort;
use walcore::WalError;

/// How many steps a plan has, at most 20, and its third one.
fn steps_of(plan: &Plan<'_>) -> (u32, Option<Step>) {
    let (mut at, mut count, mut third) = (0, 0, None);
    for i in 0..20u32 {
        let Some((step, next)) = plan.next(at) else {
            break;
        };
        count = i + 1;
        if i == 2 {
            third = Some(step);
        }
        at = next;
    }
    (count, third)
}

// Of two pages the second stands in the log.
#[test]
fn a_plan(rt: HostRuntime) {
    let plan = Plan {
        recovery: Recovery::Fold,
        page_size: 512,
        pages: 2,
        places: &[0, 56],
    };
    same(&rt, plan.next(1), Some((Step::WritePage(2), 3)));
    same(&rt, steps_of(&plan), (8, Some(Step::SetLength(1024))));
}

/// Whether a scan of the log, which has so many bytes, finds a header.
fn has_header<R: AllocGlobal + Abort>(rt: &R, disk: &mut ModelDisk, long: u64) -> bool {
    let none = Scan::new(rt.alloc());
    match done(
        rt,
        scan_log::<ModelDisk, WalError, Scan>(rt.alloc(), disk, none, long),
    ) {
        Some(scan) => scan.header().is_some(),
        None => false,
    }
}

#[test]
fn a_log_and_its_end(rt: HostRuntime) {
    let header = WalHeader {
        order: Order::Big,
        page_size: page_size(&rt, 512),
        sequence: 0,
        salt1: 1,
        salt2: 2,
    };
    let mut head = [0u8; 32];
    header.write(&mut head);
    let mut disk = disk_with(&rt, false, 512, &head);
    holds(&rt, has_header(&rt, &mut disk, 32));
    done(&rt, finish(&mut disk, 32));
    same(
        &rt,
        present(&rt, &disk, File::Log).as_slice(),
        [0u8; 32].as_slice(),
    );
}
