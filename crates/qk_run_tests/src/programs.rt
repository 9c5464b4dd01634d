//! Programs at fault, each with the first fault in the written order of checks, worked out by hand; and two without fault.

use crate::runs::{says, written};
use qk_base::OpenGate;
use std::process::Abort;
use std::test::Fail;
use std::thread::Threads;

// A row is the code and the place of its refusal, and a file; or that it passes, or has no fault at least.
const WHOLE: &str = "28 at 1:1 | 
23 at 1:1 | (prop a)
20 at 1:1 | 5
20 at 1:1 | x
20 at 1:1 | ()
20 at 1:1 | (5 a)
20 at 1:1 | (foo a)
23 at 1:1 | (type)
20 at 1:7 | (type 5)
21 at 1:7 | (type Int)
21 at 1:7 | (type int)
27 at 1:1 | (type T)
21 at 1:15 | (fun T) (type T (A))
21 at 1:14 | (type T (A) (A))
20 at 1:9 | (type T A)
20 at 1:9 | (type T (5 Int))
20 at 1:9 | (type T ())
21 at 1:10 | (type T (if))
23 at 1:9 | (type T (A Int Int Int Int Int Int Int Int Int Int Int Int Int Int Int Int Int))
21 at 1:23 | (type T (A)) (type U (A))
28 at 1:1 | (fun f)
21 at 1:15 | (fun f) (prop if)
21 at 1:10 | (type T (T))
21 at 1:16 | (prop p) (prop p)
20 at 1:9 | (prop p 5)
23 at 1:9 | (prop p (forall))
20 at 1:17 | (prop p (forall 5))
23 at 1:9 | (prop p (forall ()))
20 at 1:9 | (prop p (check true))
23 at 1:1 | (prop p (forall ((x int))) 5)
23 at 1:9 | (prop p (forall ((a0 int) (a1 int) (a2 int) (a3 int) (a4 int) (a5 int) (a6 int) (a7 int) (a8 int) (a9 int) (a10 int) (a11 int) (a12 int) (a13 int) (a14 int) (a15 int) (a16 int))))
20 at 1:18 | (prop p (forall (5) (check true)))
23 at 1:18 | (prop p (forall ((x)) (check true)))
23 at 1:18 | (prop p (forall (()) (check true)))
23 at 1:18 | (prop p (forall ((x int no-shrink 5)) (check true)))
20 at 1:19 | (prop p (forall ((5 int)) (check true)))
21 at 1:19 | (prop p (forall ((true int)) (check true)))
21 at 1:27 | (prop p (forall ((x int) (x int)) (check true)))
22 at 1:31 | (prop p (forall ((x (commands m))) (check true)))
20 at 1:31 | (prop p (forall ((x (commands p))) (check true)))
23 at 1:21 | (prop p (forall ((x (commands))) (check true)))
20 at 1:25 | (prop p (forall ((x int foo)) (check true)))
23 at 1:25 | (prop p (forall ((x int (shrink-with))) (check true)))
22 at 1:38 | (prop p (forall ((x int (shrink-with f))) (check true)))
20 at 1:38 | (prop p (forall ((x int (shrink-with p))) (check true)))
22 at 1:38 | (prop p (forall ((x int (shrink-with neg))) (check true)))
passed | (prop p (forall ((x int no-shrink)) (check true)))
passed | (prop p (forall ((x int) (y (choose 0 x))) (check true)))
22 at 1:31 | (prop p (forall ((x (choose 0 y)) (y int)) (check true)))
24 at 1:38 | (prop p (forall ((x int (shrink-with f))) (check true))) (fun f ((x Int)) Int 0)
passed | (prop p (forall ((x int (shrink-with f))) (check true))) (fun f ((x Int)) (List Int) (nil Int))
20 at 1:27 | (prop p (forall ((x int)) 5))
20 at 1:27 | (prop p (forall ((x int)) (foo)))
23 at 1:9 | (prop p (forall ((x int))))
23 at 1:27 | (prop p (forall ((x int)) (check)))
24 at 1:34 | (prop p (forall ((x int)) (check 5)))
20 at 1:40 | (prop p (forall ((x int)) (check true) (given true)))
20 at 1:40 | (prop p (forall ((x int)) (check true) (check true)))
20 at 1:27 | (prop p (forall ((x int)) (label a) (check true)))
30 at 1:47 | (prop p (forall ((x int)) (check true) (cover 101 y 5)))
30 at 1:47 | (prop p (forall ((x int)) (check true) (cover -1 y 5)))
20 at 1:47 | (prop p (forall ((x int)) (check true) (cover x y 5)))
20 at 1:52 | (prop p (forall ((x int)) (check true) (classify x 5)))
24 at 1:50 | (prop p (forall ((x int)) (check true) (classify x y)))
22 at 1:39 | (prop p (forall ((x int)) (check-runs y)))
24 at 1:39 | (prop p (forall ((x int)) (check-runs x)))
20 at 1:47 | (prop p (forall ((x int)) (check true) (label 5)))
no fault | (prop p (forall ((x int)) (check true) (label true)))
23 at 1:9 | (prop p (forall ((x int)) (given true) (given true) (given true) (given true) (given true) (given true) (given true) (given true) (given true) (given true) (given true) (given true) (given true) (given true) (given true) (given true) (given true) (check true)))
23 at 1:9 | (prop p (forall ((x int)) (check true) (label a) (label a) (label a) (label a) (label a) (label a) (label a) (label a) (label a) (label a) (label a) (label a) (label a) (label a) (label a) (label a) (label a)))
23 at 1:9 | (prop p (forall ((x int)) (given true)))
no fault | (prop p (forall ((x int)) (given (< 0 x)) (check (= x x)) (collect x) (tabulate a x) (cover 0 (< x 5) b)))
no fault | (fun f ((x Int)) (List Int) (nil Int)) (prop p (forall ((x int (shrink-with f))) (given true) (check true) (cover 5 true c)))
no fault | (gen g ((s Bool)) Int int) (fun pre ((s Bool) (c Int)) Bool s) (fun step ((r Int) (c Int)) Int r) (fun post ((s Bool) (c Int) (r Int)) Bool s) (model m (command Int g) (abstract Bool true pre pre) (system Int 0 step post)) (prop p (forall ((x (commands m))) (check-runs x)))
20 at 1:13 | (type T (A) B)
23 at 1:9 | (type T (A a b c d e f g h i j k l m n o p q))
22 at 1:12 | (type T (A Foo)) (prop p)
23 at 1:1 | (fun f) (prop p)
20 at 1:8 | (fun f 5 Int 0) (prop p)
20 at 1:17 | (fun f ((x Int) y) Int 0) (prop p)
22 at 1:12 | (fun f ((x Foo) y) Int 0) (prop p)
21 at 1:18 | (gen g ((x Int) (x Int)) Int 0) (prop p)
21 at 1:10 | (gen g ((true 5)) Int 0) (prop p)
23 at 1:11 | (fun f () (List) 0) (prop p)
23 at 1:1 | (fun f ((a Int) (b Int) (c Int) (d Int) (e Int) (f Int) (g Int) (h Int) (i Int) (j Int) (k Int) (l Int) (m Int) (n Int) (o Int) (p Int) (q Int)) Int 0) (prop p)
23 at 1:10 | (model m (command) (abstract) (system)) (prop p)
20 at 1:10 | (model m (abstract Int 0 a b) 5 5) (prop p)
23 at 1:48 | (model m (command Int g) (abstract Bool a b c) (system Int 1 s)) (prop p)
20 at 1:34 | (prop p (forall ((x (commands m) foo)) (check true))) (model m (command Int g) (abstract Int 0 a b) (system Int 0 c d))
24 at 1:47 | (prop p (forall ((x (commands m) (shrink-with f))) (check true))) (model m (command Int g) (abstract Int 0 a b) (system Int 0 c d)) (fun f ((x Int)) Int 0)
21 at 1:36 | (prop p (forall ((x (commands m)) (x int)) (check true))) (model m (command Int g) (abstract Int 0 a b) (system Int 0 c d))
";

// Rows of files that end with a property without fault.
const BEFORE: &str = "23 at 1:1 | (fun f)
23 at 1:1 | (gen g () Int)
20 at 1:8 | (fun f 5 Int 0)
20 at 1:8 | (fun f x Int 0)
23 at 1:1 | (fun f ((a0 Int) (a1 Int) (a2 Int) (a3 Int) (a4 Int) (a5 Int) (a6 Int) (a7 Int) (a8 Int) (a9 Int) (a10 Int) (a11 Int) (a12 Int) (a13 Int) (a14 Int) (a15 Int) (a16 Int)) Int 0)
20 at 1:9 | (fun f (x) Int 0)
20 at 1:9 | (fun f ((x)) Int 0)
20 at 1:9 | (fun f ((5 Int)) Int 0)
21 at 1:10 | (fun f ((true Int)) Int 0)
21 at 1:18 | (fun f ((x Int) (x Int)) Int 0)
20 at 1:12 | (fun f ((x 5)) Int 0)
22 at 1:11 | (fun f () Foo 0)
23 at 1:11 | (fun f () (List) 0)
23 at 1:11 | (fun f () (Pair Int) 0)
20 at 1:11 | (fun f () (Foo) 0)
20 at 1:11 | (fun f () () 0)
20 at 1:11 | (fun f () 5 0)
22 at 1:11 | (fun f () List 0)
22 at 1:12 | (fun f ((x Foo) y) Int 0)
22 at 1:12 | (type T (A Foo))
23 at 1:1 | (model m)
20 at 1:10 | (model m 5 5 5)
23 at 1:10 | (model m (command) (abstract) (system))
20 at 1:10 | (model m (abstract Int 0 a b) 5 5)
22 at 1:19 | (model m (command Foo g) 5 5)
20 at 1:26 | (model m (command Int g) 5 5)
22 at 1:15 | (fun f () Int x)
20 at 1:15 | (fun f () Int if)
20 at 1:15 | (fun f () Int ())
20 at 1:15 | (fun f () Int (5))
20 at 1:15 | (fun f () Int (int))
22 at 1:16 | (fun f () Int (foo 1))
23 at 1:15 | (fun f () Int (neg))
23 at 1:15 | (fun f () Int (+ x))
22 at 1:23 | (fun f () Int (+ true x))
24 at 1:18 | (fun f () Int (+ true 1))
24 at 1:19 | (fun f () Int (if 1 2 3))
24 at 1:26 | (fun f () Int (if true 1 true))
24 at 1:15 | (fun f () Int true)
20 at 1:20 | (fun f () Int (let 5 1 1))
21 at 1:20 | (fun f () Int (let true 1 1))
passed | (fun f () Int (let x 1 x))
passed | (fun f () Int (let if 1 if))
22 at 1:25 | (fun f () Int (let v 1 (v 1)))
24 at 1:15 | (fun f () Int (let x 1 (let x true x)))
24 at 1:23 | (fun f () Int (length 5))
22 at 1:28 | (fun f () Int (length (nil Foo)))
24 at 1:31 | (fun f () Int (length (cons 1 (nil Bool))))
23 at 1:15 | (fun f () Int (match))
24 at 1:15 | (fun f () Int (match 5))
24 at 1:15 | (fun f () Int (match 5 x))
25 at 1:15 | (fun f () Int (match (nil Int)))
20 at 1:32 | (fun f () Int (match (nil Int) 5))
25 at 1:15 | (fun f () Int (match (nil Int) ((nil) 0)))
26 at 1:43 | (fun f () Int (match (nil Int) ((nil) 0) ((nil) 0)))
22 at 1:34 | (fun f () Int (match (nil Int) ((foo) 0)))
24 at 1:33 | (fun f () Int (match (nil Int) ((pair x y) 0)))
24 at 1:33 | (fun f () Int (match (nil Int) ((if x) 0)))
23 at 1:33 | (fun f () Int (match (nil Int) ((nil x) 0)))
21 at 1:41 | (fun f () Int (match (nil Int) ((cons x x) 0)))
20 at 1:39 | (fun f () Int (match (nil Int) ((cons 5 x) 0)))
24 at 1:54 | (fun f () Int (match (nil Int) ((nil) 0) ((cons x y) true)))
20 at 1:32 | (fun f () Int (match (nil Int) ((nil))))
22 at 1:40 | (fun f () Int (match (nil Int) ((nil) (foo))))
passed | (fun f () Int (match (nil Int) ((cons x y) x) ((nil) 0)))
20 at 1:15 | (gen g () Int 5)
22 at 1:15 | (gen g () Int foo)
20 at 1:15 | (gen g () Int if)
23 at 1:15 | (gen g () Int (choose 1))
24 at 1:25 | (gen g () Int (choose 1 true))
23 at 1:15 | (gen g () Int (elements))
23 at 1:15 | (gen g () Int (oneof))
23 at 1:15 | (gen g () Int (frequency))
24 at 1:27 | (gen g () Int (elements 1 true))
24 at 1:26 | (gen g () Int (oneof int bool))
20 at 1:26 | (gen g () Int (frequency 5))
23 at 1:26 | (gen g () Int (frequency (1)))
20 at 1:27 | (gen g () Int (frequency (x int)))
29 at 1:27 | (gen g () Int (frequency (1000001 int)))
29 at 1:27 | (gen g () Int (frequency (-1 int)))
29 at 1:15 | (gen g () Int (frequency (0 int) (0 bool)))
24 at 1:37 | (gen g () Int (frequency (1 int) (0 bool)))
passed | (gen g () Int (frequency (1 int) (1000000 size)))
24 at 1:15 | (gen g () Int bool)
20 at 1:15 | (gen g () Int (commands m))
20 at 1:15 | (gen g () Int commands)
passed | (gen g () Int (bind x int (pure x)))
20 at 1:21 | (gen g () Int (bind 5 int int))
24 at 1:23 | (gen g () Int (resize true int))
23 at 1:15 | (gen g () Int (g 1))
20 at 1:15 | (gen g () Int (if true int int))
24 at 1:15 | (gen g () Int (vector 1 int))
";

const PASSED: &str =
    "p: passed 100 tests, 0 discarded\nproperties: 1, passed 1, failed 0, gave up 0\n";

const GOOD: &str = "\n(prop p (forall ((x int)) (check (= x x))))";

// Rows of models before the declarations that they name, and a property of their commands.
const MODELS: &str =
    "22 at 1:23 | (model m (command Cmd foo) (abstract Int 0 pre next) (system Int 0 step post))
22 at 1:23 | (model m (command Cmd bool) (abstract Int 0 pre next) (system Int 0 step post))
20 at 1:23 | (model m (command Cmd pre) (abstract Int 0 pre next) (system Int 0 step post))
20 at 1:23 | (model m (command Cmd 5) (abstract Int 0 pre next) (system Int 0 step post))
24 at 1:40 | (model m (command Cmd g) (abstract Int true pre next) (system Int 0 step post))
24 at 1:42 | (model m (command Cmd g) (abstract Int 0 next next) (system Int 0 step post))
24 at 1:64 | (model m (command Cmd g) (abstract Int 0 pre next) (system Int true step post))
24 at 1:66 | (model m (command Cmd g) (abstract Int 0 pre next) (system Int 0 pre post))
20 at 1:46 | (model m (command Cmd g) (abstract Int 0 pre (next)) (system Int 0 step post))
24 at 1:23 | (model m (command Cmd g) (abstract Bool 0 pre next) (system Int 0 step post))
";

const USES: &str = " (prop a (forall ((cs (commands m))) (check-runs cs)))
(type Cmd (Inc)) (gen g ((s Int)) Cmd (Inc)) (fun pre ((s Int) (c Cmd)) Bool true) (fun next ((s Int) (c Cmd)) Int (+ s 1)) (fun step ((r Int) (c Cmd)) Int (if (= r 2) 2 (+ r 1))) (fun post ((s Int) (c Cmd) (r Int)) Bool (= s r)) ";

// Ordered trees, and a queue of two lists.
const REALISTIC: &str = "; ordered trees and a queue of two lists
(type Tree (Leaf) (Node Tree Int Tree))
(fun insert ((x Int) (t Tree)) Tree
  (match t
    ((Leaf) (Node (Leaf) x (Leaf)))
    ((Node l y r)
      (if (< x y) (Node (insert x l) y r)
        (if (< y x) (Node l y (insert x r)) t)))))
(fun build ((xs (List Int))) Tree
  (match xs ((nil) (Leaf)) ((cons x rest) (insert x (build rest)))))
(fun flat ((t Tree)) (List Int)
  (match t ((Leaf) (nil Int))
    ((Node l x r) (append (flat l) (cons x (flat r))))))
(fun rising ((xs (List Int))) Bool
  (match xs ((nil) true)
    ((cons x rest) (match rest ((nil) true)
      ((cons y more) (and (< x y) (rising rest)))))))
(gen tree () Tree (bind xs (list int) (pure (build xs))))
(prop ordered (forall ((t (tree)) (x int))
  (given (rising (flat t)))
  (check (rising (flat (insert x t))))
  (classify (= t (Leaf)) empty)
  (cover 1 (not (= t (Leaf))) nonempty)))
(type Cmd (Put Int) (Take))
(fun pre ((s (List Int)) (c Cmd)) Bool
  (match c ((Put x) true) ((Take) (< 0 (length s)))))
(fun next ((s (List Int)) (c Cmd)) (List Int)
  (match c ((Put x) (append s (cons x (nil Int))))
    ((Take) (match s ((nil) s) ((cons h t) t)))))
(fun rev ((xs (List Int)) (acc (List Int))) (List Int)
  (match xs ((nil) acc) ((cons h t) (rev t (cons h acc)))))
(fun step ((q (Pair (List Int) (List Int))) (c Cmd)) (Pair (List Int) (List Int))
  (match q ((pair f b) (match c
    ((Put x) (pair f (cons x b)))
    ((Take) (match f
      ((cons h t) (pair t b))
      ((nil) (match (rev b (nil Int))
        ((nil) q)
        ((cons h t) (pair t (nil Int)))))))))))
(fun post ((s (List Int)) (c Cmd) (q (Pair (List Int) (List Int)))) Bool
  (match q ((pair f b) (= s (append f (rev b (nil Int)))))))
(gen cmd ((s (List Int))) Cmd (frequency (3 (Put int)) (1 (Take))))
(model queue (command Cmd cmd)
  (abstract (List Int) (nil Int) pre next)
  (system (Pair (List Int) (List Int)) (pair (nil Int) (nil Int)) step post))
(prop queue-ok (forall ((cs (commands queue))) (check-runs cs)))";

const NO_FAULT: &str = "no fault | ";

// Runs each row's file, ended so.
fn answers_rows<R: Threads + Sync + Abort + AllocGlobal>(
    rt: &R,
    rows: &str,
    ended: &str,
) -> Result<(), Fail> {
    for row in rows.lines() {
        let (answer, file) = row.split_once(" | ").ok_or("a row without a file")?;
        answers_file(rt, answer, file, ended)?;
    }
    Ok(())
}

fn answers_file<R: Threads + Sync + Abort + AllocGlobal>(
    rt: &R,
    answer: &str,
    file: &str,
    ended: &str,
) -> Result<(), Fail> {
    let file = format!(in rt.alloc(); "{file}{ended}")?;
    if answer == "passed" {
        return says(rt, "f", file.as_str(), 0, PASSED);
    }
    if answer == "no fault" {
        let said = written(rt, "f", file.as_str(), &OpenGate)?;
        assert!(rt; said.as_str().ends_with("status 0"), "{said}");
        return Ok(());
    }
    let text = format!(in rt.alloc(); "refused {answer}\n")?;
    says(rt, "f", file.as_str(), 3, text.as_str())
}

#[test]
fn programs(rt: HostRuntime) -> Result<(), Fail> {
    answers_rows(&rt, WHOLE, "")?;
    answers_rows(&rt, BEFORE, GOOD)?;
    answers_rows(&rt, MODELS, USES)?;
    answers_rows(&rt, NO_FAULT, REALISTIC)
}
