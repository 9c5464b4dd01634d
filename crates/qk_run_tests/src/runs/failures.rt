//! Failures: their causes, fuel to the unit, and how they are shrunk.

use super::{says, written};
use qk_base::OpenGate;
use std::alloc::Global;
use std::process::Abort;
use std::test::Fail;
use std::thread::Threads;

// Each row: words, the units of fuel, and of the failure at the first attempt its cause, the steps and candidates of its shrinking, the
// values and the path; and a file.
const FAILURES: &str =
    "f | 100000 | false | 2, tried 9 | x = 5 | 2.2 | (prop a (forall ((x (choose 8 8))) (check (< x 5))))
--shrinks 1 f | 100000 | false | 1, tried 3, limit reached | x = 6 | 2 | (prop a (forall ((x (choose 8 8))) (check (< x 5))))
f --shrinks=0 | 100000 | false | 0, tried 0, limit reached | x = 8 | - | (prop a (forall ((x (choose 8 8))) (check (< x 5))))
f | 100000 | false | 0, tried 0 | x = 8 | - | (prop a (forall ((x (choose 8 8) no-shrink)) (check (< x 5))))
f | 100000 | false | 3, tried 13 | x = [0, 0] | 1.3.3 | (prop a (forall ((x (vector 3 (choose 3 3)))) (check (< (length x) 2))))
f | 100000 | false | 1, tried 6 | x = 8 | 1 | (prop a (forall ((x (choose 16 16))) (check (not (or (= x 16) (or (= x 8) (= x 12)))))))
f | 100000 | false | 1, tried 1 | x = 0 | 0 | (prop a (forall ((x (choose -9223372036854775808 -9223372036854775808))) (check (< 0 x))))
f | 100000 | overflow | 0, tried 63 | x = 9223372036854775807 | - | (prop a (forall ((x (choose 9223372036854775807 9223372036854775807))) (check (< x (+ x 1)))))
f | 100000 | false | 3, tried 4 | x = 5 | 0.0.0 | (fun s ((x Int)) (List Int) (cons (- x 1) (nil Int))) (prop a (forall ((x (choose 8 8) (shrink-with s))) (check (< x 5))))
f | 100000 | out of fuel while drawing | 0, tried 0 |  | - | (gen g () Int (g)) (prop a (forall ((x (g))) (check true)))
--fuel 100000 f | 100000 | out of fuel | 0, tried 0 | x = 0 | - | (fun spin ((n Int)) Int (spin n)) (prop a (forall ((x (choose 0 0))) (check (= (spin x) 0))))
f | 100000 | value too large | 0, tried 0 | x = 0 | - | (fun grow ((xs (List Int))) (List Int) (grow (append xs xs))) (prop a (forall ((x (choose 0 0))) (check (= (length (grow (cons x (nil Int)))) 0))))
f | 100000 | division by zero | 1, tried 1 | x = [] | 0 | (prop a (forall ((x (vector 3 (choose 3 3)))) (check (= 1 (div 1 (mod (length x) 3))))))
f | 100000 | false | 1, tried 3 | x = 8 & y = 1 | 1 | (fun s ((x Int)) (List Int) (s x)) (prop a (forall ((x (choose 8 8) (shrink-with s)) (y (choose 2 2))) (check (< (+ x y) 9))))";

// The same where a function lists 8,192 candidates, of which the last fails or none.
const LISTED: &str =
    "f | 100000 | false | 0, tried 8192 | x = 8 | - | (fun full ((n Int) (xs (List Int))) (List Int) (if (= n 0) xs (full (- n 1) (cons 0 (append xs xs))))) (fun s ((x Int)) (List Int) (append (full 13 (nil Int)) (cons 5 (nil Int)))) (prop a (forall ((x (pure 8) (shrink-with s))) (check (< x 8))))
--shrinks 1 f | 100000 | false | 1, tried 8192, limit reached | x = 5 | 8191 | (fun full ((n Int) (xs (List Int))) (List Int) (if (= n 0) xs (full (- n 1) (cons 0 (append xs xs))))) (fun s ((x Int)) (List Int) (append (full 13 (nil Int)) (cons 5 (nil Int)))) (prop a (forall ((x (pure 8) (shrink-with s))) (check (< x 5))))";

// The same where one unit of fuel is missing.
const TOO_LITTLE: &str =
    "--success 2 --fuel 10 f | 10 | out of fuel | 0, tried 4 | x = 10 | - | (fun down ((n Int)) Int (if (= n 0) 0 (+ 1 (down (- n 1))))) (prop a (forall ((x (pure 10))) (check (= x (down x)))))
--success 2 --fuel 99999 f | 99999 | out of fuel | 0, tried 17 | x = 99999 | - | (fun down ((n Int)) Int (if (= n 0) 0 (+ 1 (down (- n 1))))) (prop a (forall ((x (pure 99999))) (check (= x (down x)))))
--success 2 --fuel 1 f | 1 | out of fuel | 0, tried 2 | x = 3 | - | (fun f ((x Int)) Int x) (gen g () Int (choose 3 3)) (prop a (forall ((x (g))) (given (= 3 (f x))) (check (= 3 (f x)))))
--success 2 --fuel 1 f | 1 | out of fuel while drawing | 0, tried 0 | x = 3 | - | (fun f ((x Int)) Int x) (gen g () Int (choose 3 3)) (prop a (forall ((x (g)) (y (g))) (check (= 3 (f x)))))";

// Each row: units of fuel that are enough, one more than there, and the file.
const ENOUGH: &str =
    "11 | (fun down ((n Int)) Int (if (= n 0) 0 (+ 1 (down (- n 1))))) (prop a (forall ((x (pure 10))) (check (= x (down x)))))
100000 | (fun down ((n Int)) Int (if (= n 0) 0 (+ 1 (down (- n 1))))) (prop a (forall ((x (pure 99999))) (check (= x (down x)))))
2 | (fun f ((x Int)) Int x) (gen g () Int (choose 3 3)) (prop a (forall ((x (g))) (given (= 3 (f x))) (check (= 3 (f x)))))
2 | (fun f ((x Int)) Int x) (gen g () Int (choose 3 3)) (prop a (forall ((x (g)) (y (g))) (check (= 3 (f x)))))";

// The report of a property that fails at its first attempt.
fn report(
    alloc: Global,
    fuel: &str,
    told: (&str, &str),
    values: &str,
    path: &str,
) -> Result<String, Fail> {
    let (cause, shrinks) = told;
    let mut text = format!(in alloc;
        "a: failed after 1 test, 0 discarded\ncause: {cause}\nattempt: 0, size 0\nshrinks: {shrinks}\n"
    )?;
    for value in values.split(" & ") {
        if !value.is_empty() {
            text.push_str(format!(in alloc; "  {value}\n")?.as_str())?;
        }
    }
    Ok(format!(in alloc;
        "{text}path: {path}\nreplay: q1:0:0:0:0:{fuel}:{path}\nproperties: 1, passed 0, failed 1, gave up 0\n"
    )?)
}

fn three(text: &str) -> Result<(&str, &str, &str), Fail> {
    let (first, rest) = text.split_once(" | ").ok_or("one part")?;
    let (second, third) = rest.split_once(" | ").ok_or("two parts")?;
    Ok((first, second, third))
}

fn fails<R: Threads + Sync + Abort + AllocGlobal>(rt: &R, row: &str) -> Result<(), Fail> {
    let (words, fuel, rest) = three(row)?;
    let (cause, shrinks, rest) = three(rest)?;
    let (values, path, file) = three(rest)?;
    let text = report(rt.alloc(), fuel, (cause, shrinks), values, path)?;
    says(rt, words, file, 1, text.as_str())
}

const PASSED: &str =
    "a: passed 2 tests, 0 discarded\nproperties: 1, passed 1, failed 0, gave up 0\n";

#[test]
fn failures(rt: HostRuntime) -> Result<(), Fail> {
    for row in FAILURES.lines() {
        fails(&rt, row)?;
    }
    Ok(())
}

#[test]
fn long_lists_of_candidates(rt: HostRuntime) -> Result<(), Fail> {
    for row in LISTED.lines() {
        fails(&rt, row)?;
    }
    Ok(())
}

#[test]
fn fuel_to_the_unit(rt: HostRuntime) -> Result<(), Fail> {
    for row in TOO_LITTLE.lines() {
        fails(&rt, row)?;
    }
    for row in ENOUGH.lines() {
        let (fuel, file) = row.split_once(" | ").ok_or("one part")?;
        let words = format!(in rt.alloc(); "--success 2 --fuel {fuel} f")?;
        says(&rt, words.as_str(), file, 0, PASSED)?;
    }
    Ok(())
}

// Each row: words, what is told of the shrinking, two minima with their paths of which either may be told, and a file.
const GREEDY: &str =
    "--greedy f | 1, greedy | x = 8 | 1 | x = 12 | 2 | (prop a (forall ((x (choose 16 16))) (check (not (or (= x 16) (or (= x 8) (= x 12)))))))
--greedy --shrinks 1 f | 1, greedy, limit reached | x = 6 | 2 | x = 7 | 3 | (prop a (forall ((x (choose 8 8))) (check (< x 5))))";

fn either<R: Threads + Sync + Abort + AllocGlobal>(rt: &R, row: &str) -> Result<(), Fail> {
    let (words, shrinks, rest) = three(row)?;
    let (value, path, rest) = three(rest)?;
    let (other_value, other_path, file) = three(rest)?;
    let told = ("false", shrinks);
    let one = report(rt.alloc(), "100000", told, value, path)?;
    let other = report(rt.alloc(), "100000", told, other_value, other_path)?;
    let said = written(rt, words, file, &OpenGate)?;
    let (text, _) = said
        .as_str()
        .split_once("status 1")
        .ok_or("another status")?;
    assert!(rt; text == one.as_str() || text == other.as_str(), "{said}");
    Ok(())
}

#[test]
fn greedy_minima(rt: HostRuntime) -> Result<(), Fail> {
    for _ in 0..5u32 {
        for row in GREEDY.lines() {
            either(&rt, row)?;
        }
    }
    Ok(())
}
