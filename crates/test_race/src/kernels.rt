//! Kernels that people know, each racy or free of races for a reason.
use crate::telling::told;
use std::alloc::Global;
use std::test::Fail;

/// In this order: two tasks that write one cell; two where the second says `in` and writes; two that say `out`; one
/// writer and two readers which copy; a wait that awaits the child and not the grandchild; a wait for one cell before
/// which another is read; a chain of two and a wait for the first; a sum over eight tasks of a loop; a sum that is read in
/// its group; a wavefront over 4 by 4 cells; the same without the dependence on the cell above; phases of a
/// factorization with a wait between them; the same with one wait too few.
const KERNELS: &str =
    r#"4 2.0|[["task",[],[["set",["c","a",0],1]]],["task",[],[["set",["c","a",0],2]]]]
none|[["task",[["out",["a",0,1]]],[["set",["c","a",0],1]]],["task",[["in",["a",0,1]]],[["set",["c","a",0],2]]]]
none|[["task",[["out",["a",0,1]]],[["set",["c","a",0],1]]],["task",[["out",["a",0,1]]],[["set",["c","a",0],2]]]]
none|[["task",[["out",["a",0,1]]],[["set",["c","a",0],1]]],["task",[["in",["a",0,1]]],[["set",["c","a",1],["c","a",0]]]],["task",[["in",["a",0,1]]],[["set",["c","a",2],["c","a",0]]]]]
6 3.5|[["task",[],[["task",[],[["set",["c","a",5],["c","a",2]]]],["set",["c","a",4],["c","a",0]]]],["wait"],["set",["c","a",6],["c","a",5]]]
7 4.1|[["task",[["inout",["a",0,1]]],[["fold","+",["c","a",0],1]]],["task",[],[["fold","+",["c","a",1],18446744073709551615]]],["wait",[["in",["a",0,1]]]],["set",["c","a",2],["c","a",0]],["set",["c","a",3],["c","a",1]],["wait"]]
none|[["task",[["inout",["a",0,1]]],[["fold","+",["c","a",0],1]]],["task",[["in",["a",0,1]],["inout",["a",1,1]]],[["set",["c","a",1],["-",["c","a",1],["c","a",0]]]]],["wait",[["in",["a",0,1]]]],["set",["c","a",2],["c","a",0]],["wait"],["set",["c","a",3],["c","a",1]]]
none|[["group","+",[["a",8,1]],[["for","i",0,8,[["task",[["red","+",["a",8,1]],["in",["a","i",1]]],[["fold","+",["c","a",8],["c","a","i"]]]]]]]]]
18 3.8|[["group","+",[["a",8,1]],[["for","i",0,8,[["task",[["red","+",["a",8,1]],["in",["a","i",1]]],[["fold","+",["c","a",8],["c","a","i"]]]]]],["set",["c","a",9],["c","a",8]]]]]
none|[["for","i",1,4,[["for","j",1,4,[["task",[["in",["a",["+",["*",["-","i",1],4],"j"],1]],["in",["a",["-",["+",["*","i",4],"j"],1],1]],["out",["a",["+",["*","i",4],"j"],1]]],[["set",["c","a",["+",["*","i",4],"j"]],["+",["c","a",["+",["*",["-","i",1],4],"j"]],["c","a",["-",["+",["*","i",4],"j"],1]]]]]]]]]]]
8 2.5|[["for","i",1,4,[["for","j",1,4,[["task",[["out",["a",["+",["*","i",4],"j"],1]],["in",["a",["-",["+",["*","i",4],"j"],1],1]]],[["set",["c","a",["+",["*","i",4],"j"]],["+",["c","a",["+",["*",["-","i",1],4],"j"]],["c","a",["-",["+",["*","i",4],"j"],1]]]]]]]]]]]
none|[["for","k",0,4,[["set",["c","a",["+",["*","k",4],"k"]],["+",["*",["c","a",["+",["*","k",4],"k"]],3],1]],["for","j",["+","k",1],4,[["task",[],[["fold","+",["c","a",["+",["*","k",4],"j"]],["c","a",["+",["*","k",4],"k"]]]]]]],["for","i",["+","k",1],4,[["task",[],[["fold","+",["c","a",["+",["*","i",4],"k"]],["c","a",["+",["*","k",4],"k"]]]]]]],["wait"],["for","i",["+","k",1],4,[["for","j",["+","k",1],4,[["task",[],[["fold","+",["c","a",["+",["*","i",4],"j"]],["*",["c","a",["+",["*","i",4],"k"]],["c","a",["+",["*","k",4],"j"]]]]]]]]]],["wait"]]]]
15 9.4|[["for","k",0,4,[["set",["c","a",["+",["*","k",4],"k"]],["+",["*",["c","a",["+",["*","k",4],"k"]],3],1]],["for","j",["+","k",1],4,[["task",[],[["fold","+",["c","a",["+",["*","k",4],"j"]],["c","a",["+",["*","k",4],"k"]]]]]]],["for","i",["+","k",1],4,[["task",[],[["fold","+",["c","a",["+",["*","i",4],"k"]],["c","a",["+",["*","k",4],"k"]]]]]]],["for","i",["+","k",1],4,[["for","j",["+","k",1],4,[["task",[],[["fold","+",["c","a",["+",["*","i",4],"j"]],["*",["c","a",["+",["*","i",4],"k"]],["c","a",["+",["*","k",4],"j"]]]]]]]]]],["wait"]]]]
"#;

#[test]
fn kernels(rt: HostRuntime) -> Result<(), Fail> {
    let alloc = rt.alloc();
    let mut rows = 0u32;
    for line in KERNELS.lines() {
        if let Some((row, body)) = line.split_once("|") {
            let told = told(alloc, 16, body)?;
            assert!(rt; told.as_str() == row, "{line} {told}");
            rows = rows.wrapping_add(1);
        }
    }
    assert!(rt; rows == 13);
    Ok(())
}
