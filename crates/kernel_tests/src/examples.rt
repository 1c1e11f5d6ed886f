// The sessions of examples/ and of the documents. Written by examples/embed.

/// How many there are.
pub const COUNT: u32 = 44;

/// The name of each, what is typed and what is printed, with a `~` behind each of these. They are one text, since a table of texts is
/// slow to prove.
pub const EXAMPLES: &str =
    "circle_bundles~; Circle bundles over the 2-sphere. The value 1 on its cell makes the 3-sphere, by the Hopf map.
(setf hopf (bundle (sphere 2) (S2 1)))
(betti hopf 0 4)
(homology hopf 3)
(homology hopf 0)

; The fibre over the base point is a boundary in it.
(express hopf 1 (1 <0:*,|1|>))
(express hopf 1 (1 <0:*,|-1|>))

; Without a value, or with the value 0, the bundle is the product with K(Z,1).
(betti (bundle (sphere 2)) 0 3)
(betti (bundle (sphere 2) (S2 0)) 0 3)
(betti (crts-prdc (sphere 2) (k-z-1)) 0 3)

; The value 2 makes the projective space of dimension 3, the value m a lens space with first homology of order m.
(setf rp3 (bundle (sphere 2) (S2 2)))
(betti rp3 0 3)
(homology rp3 2)
(boundary rp3 2 (1 <S2,1-0:|>))
(setf lens3 (bundle (sphere 2) (S2 3)))
(betti lens3 0 3)
(field 3)
(betti rp3 0 3)
(betti lens3 0 3)
(homology lens3 1)
(express lens3 1 (1 <0:*,|2|>))

; A value and its negative give the same numbers.
(betti (bundle (sphere 2) (S2 -3)) 0 3)
(field 2)
(betti (bundle (sphere 2) (S2 -2)) 0 3)
(betti (bundle (sphere 2) (S2 -3)) 0 3)

; Over a torus with one cell of value 1, the bundle is a nilmanifold; with the sum 0 it is the torus of dimension 3.
(setf torus (table (v) (a v v) (b v v) (c v v) (s b c a) (t a c b)))
(setf nil (bundle torus (s 1)))
(betti nil 0 4)
(betti (bundle torus (s 1) (t 1)) 0 3)
(setf nil2 (bundle torus (s 2)))
(betti nil2 0 3)
(field 3)
(betti nil2 0 3)
(betti nil 0 3)
(homology nil 2)

; Bundles in products.
(betti (crts-prdc hopf (sphere 1)) 0 4)
(betti (crts-prdc rp3 lens3) 0 6)
~defined hopf
betti 1 0 0 1 0
homology 1
(1 <0:S2,2-1:|1|>) (1 <1:S2,2-0:|1|>) (1 <2:S2,1-0:|1|>)
homology 1
(1 <*,|>)
coefficients
chain (1 <S2,1-0:|>)
coefficients
chain (1 <S2,1-0:|>) (1 <1-0:*,|1|-1|>)
betti 1 1 1 1
betti 1 1 1 1
betti 1 1 1 1
defined rp3
betti 1 1 1 1
homology 1
(1 <S2,1-0:|>) (1 <1-0:*,|1|1|>)
chain (1 <0:*,|2|>)
defined lens3
betti 1 0 0 1
field 3
betti 1 0 0 1
betti 1 1 1 1
homology 1
(1 <0:*,|1|>)
coefficients 2
chain (2 <1-0:*,|1|1|>)
betti 1 1 1 1
field 2
betti 1 1 1 1
betti 1 0 0 1
defined torus
defined nil
betti 1 2 2 1 0
betti 1 3 3 1
defined nil2
betti 1 3 3 1
field 3
betti 1 2 2 1
betti 1 2 2 1
homology 2
(2 <0:b,1:|1|>) (1 <1:b,0:|1|>)
(2 <0:c,1:|1|>) (1 <1:c,0:|1|>)
betti 1 1 0 1 1
betti 1 1 1 2 1 1 1
~complex_projective_plane~; The complex projective plane with 9 vertices, found by Kuehnel: 9, 36, 84, 90 and 36 simplices, 255 in all.
(setf cp2 (table (v1) (v2) (v3) (v4) (v5) (v6) (v7) (v8) (v9) (e12 v2 v1) (e13 v3 v1) (e14 v4 v1) (e15 v5 v1) (e16 v6 v1) (e17 v7 v1) (e18 v8 v1) (e19 v9 v1) (e23 v3 v2) (e24 v4 v2) (e25 v5 v2) (e26 v6 v2) (e27 v7 v2) (e28 v8 v2) (e29 v9 v2) (e34 v4 v3) (e35 v5 v3) (e36 v6 v3) (e37 v7 v3) (e38 v8 v3) (e39 v9 v3) (e45 v5 v4) (e46 v6 v4) (e47 v7 v4) (e48 v8 v4) (e49 v9 v4) (e56 v6 v5) (e57 v7 v5) (e58 v8 v5) (e59 v9 v5) (e67 v7 v6) (e68 v8 v6) (e69 v9 v6) (e78 v8 v7) (e79 v9 v7) (e89 v9 v8) (t123 e23 e13 e12) (t124 e24 e14 e12) (t125 e25 e15 e12) (t126 e26 e16 e12) (t127 e27 e17 e12) (t128 e28 e18 e12) (t129 e29 e19 e12) (t134 e34 e14 e13) (t135 e35 e15 e13) (t136 e36 e16 e13) (t137 e37 e17 e13) (t138 e38 e18 e13) (t139 e39 e19 e13) (t145 e45 e15 e14) (t146 e46 e16 e14) (t147 e47 e17 e14) (t148 e48 e18 e14) (t149 e49 e19 e14) (t156 e56 e16 e15) (t157 e57 e17 e15) (t158 e58 e18 e15) (t159 e59 e19 e15) (t167 e67 e17 e16) (t168 e68 e18 e16) (t169 e69 e19 e16) (t178 e78 e18 e17) (t179 e79 e19 e17) (t189 e89 e19 e18) (t234 e34 e24 e23) (t235 e35 e25 e23) (t236 e36 e26 e23) (t237 e37 e27 e23) (t238 e38 e28 e23) (t239 e39 e29 e23) (t245 e45 e25 e24) (t246 e46 e26 e24) (t247 e47 e27 e24) (t248 e48 e28 e24) (t249 e49 e29 e24) (t256 e56 e26 e25) (t257 e57 e27 e25) (t258 e58 e28 e25) (t259 e59 e29 e25) (t267 e67 e27 e26) (t268 e68 e28 e26) (t269 e69 e29 e26) (t278 e78 e28 e27) (t279 e79 e29 e27) (t289 e89 e29 e28) (t345 e45 e35 e34) (t346 e46 e36 e34) (t347 e47 e37 e34) (t348 e48 e38 e34) (t349 e49 e39 e34) (t356 e56 e36 e35) (t357 e57 e37 e35) (t358 e58 e38 e35) (t359 e59 e39 e35) (t367 e67 e37 e36) (t368 e68 e38 e36) (t369 e69 e39 e36) (t378 e78 e38 e37) (t379 e79 e39 e37) (t389 e89 e39 e38) (t456 e56 e46 e45) (t457 e57 e47 e45) (t458 e58 e48 e45) (t459 e59 e49 e45) (t467 e67 e47 e46) (t468 e68 e48 e46) (t469 e69 e49 e46) (t478 e78 e48 e47) (t479 e79 e49 e47) (t489 e89 e49 e48) (t567 e67 e57 e56) (t568 e68 e58 e56) (t569 e69 e59 e56) (t578 e78 e58 e57) (t579 e79 e59 e57) (t589 e89 e59 e58) (t678 e78 e68 e67) (t679 e79 e69 e67) (t689 e89 e69 e68) (t789 e89 e79 e78) (g1237 t237 t137 t127 t123) (g1238 t238 t138 t128 t123) (g1239 t239 t139 t129 t123) (g1245 t245 t145 t125 t124) (g1246 t246 t146 t126 t124) (g1247 t247 t147 t127 t124) (g1249 t249 t149 t129 t124) (g1256 t256 t156 t126 t125) (g1258 t258 t158 t128 t125) (g1259 t259 t159 t129 t125) (g1267 t267 t167 t127 t126) (g1268 t268 t168 t128 t126) (g1278 t278 t178 t128 t127) (g1279 t279 t179 t129 t127) (g1289 t289 t189 t129 t128) (g1345 t345 t145 t135 t134) (g1346 t346 t146 t136 t134) (g1347 t347 t147 t137 t134) (g1348 t348 t148 t138 t134) (g1356 t356 t156 t136 t135) (g1357 t357 t157 t137 t135) (g1359 t359 t159 t139 t135) (g1368 t368 t168 t138 t136) (g1369 t369 t169 t139 t136) (g1378 t378 t178 t138 t137) (g1379 t379 t179 t139 t137) (g1389 t389 t189 t139 t138) (g1456 t456 t156 t146 t145) (g1457 t457 t157 t147 t145) (g1459 t459 t159 t149 t145) (g1467 t467 t167 t147 t146) (g1468 t468 t168 t148 t146) (g1478 t478 t178 t148 t147) (g1479 t479 t179 t149 t147) (g1568 t568 t168 t158 t156) (g1569 t569 t169 t159 t156) (g1579 t579 t179 t159 t157) (g1589 t589 t189 t159 t158) (g1678 t678 t178 t168 t167) (g1689 t689 t189 t169 t168) (g2345 t345 t245 t235 t234) (g2346 t346 t246 t236 t234) (g2348 t348 t248 t238 t234) (g2349 t349 t249 t239 t234) (g2356 t356 t256 t236 t235) (g2357 t357 t257 t237 t235) (g2358 t358 t258 t238 t235) (g2367 t367 t267 t237 t236) (g2369 t369 t269 t239 t236) (g2378 t378 t278 t238 t237) (g2379 t379 t279 t239 t237) (g2389 t389 t289 t239 t238) (g2456 t456 t256 t246 t245) (g2458 t458 t258 t248 t245) (g2459 t459 t259 t249 t245) (g2467 t467 t267 t247 t246) (g2469 t469 t269 t249 t246) (g2479 t479 t279 t249 t247) (g2489 t489 t289 t249 t248) (g2567 t567 t267 t257 t256) (g2568 t568 t268 t258 t256) (g2578 t578 t278 t258 t257) (g2589 t589 t289 t259 t258) (g2678 t678 t278 t268 t267) (g2679 t679 t279 t269 t267) (g3456 t456 t356 t346 t345) (g3457 t457 t357 t347 t345) (g3458 t458 t358 t348 t345) (g3468 t468 t368 t348 t346) (g3469 t469 t369 t349 t346) (g3478 t478 t378 t348 t347) (g3489 t489 t389 t349 t348) (g3567 t567 t367 t357 t356) (g3569 t569 t369 t359 t356) (g3578 t578 t378 t358 t357) (g3579 t579 t379 t359 t357) (g3679 t679 t379 t369 t367) (g3689 t689 t389 t369 t368) (g4578 t578 t478 t458 t457) (g4579 t579 t479 t459 t457) (g4589 t589 t489 t459 t458) (g4678 t678 t478 t468 t467) (g4679 t679 t479 t469 t467) (g4689 t689 t489 t469 t468) (g4789 t789 t489 t479 t478) (g5678 t678 t578 t568 t567) (g5679 t679 t579 t569 t567) (g5689 t689 t589 t569 t568) (g5789 t789 t589 t579 t578) (g6789 t789 t689 t679 t678) (f12378 g2378 g1378 g1278 g1238 g1237) (f12379 g2379 g1379 g1279 g1239 g1237) (f12389 g2389 g1389 g1289 g1239 g1238) (f12456 g2456 g1456 g1256 g1246 g1245) (f12459 g2459 g1459 g1259 g1249 g1245) (f12467 g2467 g1467 g1267 g1247 g1246) (f12479 g2479 g1479 g1279 g1249 g1247) (f12568 g2568 g1568 g1268 g1258 g1256) (f12589 g2589 g1589 g1289 g1259 g1258) (f12678 g2678 g1678 g1278 g1268 g1267) (f13456 g3456 g1456 g1356 g1346 g1345) (f13457 g3457 g1457 g1357 g1347 g1345) (f13468 g3468 g1468 g1368 g1348 g1346) (f13478 g3478 g1478 g1378 g1348 g1347) (f13569 g3569 g1569 g1369 g1359 g1356) (f13579 g3579 g1579 g1379 g1359 g1357) (f13689 g3689 g1689 g1389 g1369 g1368) (f14579 g4579 g1579 g1479 g1459 g1457) (f14678 g4678 g1678 g1478 g1468 g1467) (f15689 g5689 g1689 g1589 g1569 g1568) (f23456 g3456 g2456 g2356 g2346 g2345) (f23458 g3458 g2458 g2358 g2348 g2345) (f23469 g3469 g2469 g2369 g2349 g2346) (f23489 g3489 g2489 g2389 g2349 g2348) (f23567 g3567 g2567 g2367 g2357 g2356) (f23578 g3578 g2578 g2378 g2358 g2357) (f23679 g3679 g2679 g2379 g2369 g2367) (f24589 g4589 g2589 g2489 g2459 g2458) (f24679 g4679 g2679 g2479 g2469 g2467) (f25678 g5678 g2678 g2578 g2568 g2567) (f34578 g4578 g3578 g3478 g3458 g3457) (f34689 g4689 g3689 g3489 g3469 g3468) (f35679 g5679 g3679 g3579 g3569 g3567) (f45789 g5789 g4789 g4589 g4579 g4578) (f46789 g6789 g4789 g4689 g4679 g4678) (f56789 g6789 g5789 g5689 g5679 g5678)))
(betti cp2 0 5)
(homology cp2 2)
(field 3)
(betti cp2 0 5)
(homology cp2 2)
(homology cp2 4)
; The boundary of the triangle 1 2 3 bounds within the plane, and so does each closed path.
(express cp2 1 (1 e12) (1 e23) (-1 e13))
(express cp2 1 (1 e14) (1 e45) (-1 e15))
; The boundary of a tetrahedron of the plane has class 0.
(express cp2 2 (1 t456) (-1 t156) (1 t146) (-1 t145))
(field 5)
(betti cp2 0 5)
~defined cp2
betti 1 0 1 0 1 0
homology 1
(1 t456) (1 t459) (1 t469) (1 t569)
field 3
betti 1 0 1 0 1 0
homology 1
(1 t456) (2 t459) (1 t469) (2 t569)
homology 1
(1 f12378) (2 f12379) (1 f12389) (1 f12456) (2 f12459) (1 f12467) (1 f12479) (2 f12568) (2 f12589) (2 f12678) (2 f13456) (1 f13457) (2 f13468) (1 f13478) (1 f13569) (2 f13579) (1 f13689) (1 f14579) (1 f14678) (2 f15689) (1 f23456) (2 f23458) (1 f23469) (2 f23489) (2 f23567) (2 f23578) (1 f23679) (2 f24589) (2 f24679) (2 f25678) (2 f34578) (1 f34689) (1 f35679) (1 f45789) (2 f46789) (1 f56789)
coefficients
chain (1 t123)
coefficients
chain (1 t145)
coefficients 0
chain (1 g1456)
field 5
betti 1 0 1 0 1 0
~dunce_hat~; The dunce hat: a triangle with its three sides glued to one loop, two of them forwards and one backwards.
; It is contractible, though it has no free edge to begin a collapse at. Over every field its homology is that of a point.
(setf hat (table (v) (e v v) (t e e e)))
(boundary hat 2 (1 t))
(betti hat 0 2)
(homology hat 0)
(homology hat 1)
(express hat 1 (1 e))
(field 3)
(betti hat 0 2)
(express hat 1 (2 e))
(field 5)
(betti hat 0 2)
(express hat 1 (-2 e))
(express hat 2 (1 t))
(express hat 2 0)
~defined hat
chain (1 e)
betti 1 0 0
homology 1
(1 v)
homology 0
coefficients
chain (1 t)
field 3
betti 1 0 0
coefficients
chain (2 t)
field 5
betti 1 0 0
coefficients
chain (3 t)
error not-a-cycle (1 e)
coefficients
chain 0
~graphs~; Graphs are tables of vertices and edges. An edge from a to b has the faces b, a, in this order.
; A square and a triangle that do not meet: two components, two independent circuits.
(setf graph (table (a) (b) (c) (d) (x) (y) (z) (ab b a) (bc c b) (cd d c) (da a d) (xy y x) (yz z y) (zx x z)))
(betti graph 0 1)
(homology graph 0)
(homology graph 1)
; Vertices of one component differ by the boundary of a path.
(express graph 0 (1 a) (1 c))
(express graph 0 (1 a) (1 x))
; A circuit, and a path that is not closed.
(express graph 1 (1 ab) (1 bc) (1 cd) (1 da))
(express graph 1 (1 ab) (1 bc))

; The complete graph on 4 vertices, over F_3: three independent circuits.
(field 3)
(setf k4 (table (v1) (v2) (v3) (v4) (e12 v2 v1) (e13 v3 v1) (e14 v4 v1) (e23 v3 v2) (e24 v4 v2) (e34 v4 v3)))
(betti k4 0 1)
(homology k4 1)
(express k4 1 (1 e12) (1 e23) (1 e34) (-1 e14))
(express k4 0 (1 v1) (-1 v4))
(express k4 1 (1 e12) (-1 e23))

; Ten points.
(betti (table (p0) (p1) (p2) (p3) (p4) (p5) (p6) (p7) (p8) (p9)) 0 1)
~defined graph
betti 2 2
homology 2
(1 d)
(1 z)
homology 2
(1 ab) (1 bc) (1 cd) (1 da)
(1 xy) (1 yz) (1 zx)
coefficients 0 0
chain (1 ab) (1 bc)
coefficients 1 1
chain (1 ab) (1 bc) (1 cd) (1 xy) (1 yz)
coefficients 1 0
chain 0
error not-a-cycle (1 a)
field 3
defined k4
betti 1 3
homology 3
(1 e12) (2 e14) (1 e24)
(1 e13) (2 e14) (1 e34)
(1 e23) (2 e24) (1 e34)
coefficients 1 0 1
chain 0
coefficients 0
chain (2 e14)
error not-a-cycle (2 v1)
betti 10 0
~k_z_1~; K(Z,1), the nerve of the integers: a simplex of degree n is a list of n integers, and one with a 0 is degenerate. The face d_0 drops the
; first integer, d_n the last, and each other face adds two neighbours. So there are infinitely many cells in each positive degree.
(betti (k-z-1) 0 4)
(homology (k-z-1) 0)
(homology (k-z-1) 1)
(homology (k-z-1) 2)
; Faces: d_0, d_1 and d_2 of |2|3| are |3|, |5| and |2|; a face with a 0 counts as 0.
(setf k (k-z-1))
(field 7)
(boundary k 2 (1 |2|3|))
(boundary k 3 (1 |1|-1|2|))
(boundary k 1 (3 |5|))
(boundary k 2 (1 |0|3|) (1 |3|0|) (1 0:|4|))
; The loop |5| is five times the loop |1|, up to a boundary; |-2| is -2 times it.
(express k 1 (1 |5|))
(express k 1 (1 |-2|))
(express k 1 (1 |3|) (1 |4|) (-1 |7|))
; A cycle of degree 2 is a boundary, and a chain that is none is refused.
(express k 2 (1 |3|1|) (-1 |5|1|) (1 |2|4|) (-1 |2|3|))
(express k 2 (1 |2|3|))
(express k 0 (3 |) (2 |))
(field 2)
(express k 1 (1 |5|))
(express k 1 (1 |4|))
; The degree counts the integers, the 0s among them, and indices of degeneracies fall.
(boundary k 1 (1 |2|3|))
(boundary k 2 (1 |2|3|) (1 |2|))
(boundary k 2 (1 *))
(boundary k 3 (1 0-1:|5|))
; Integers have at most 100,000 in magnitude, in what is typed and in what is printed, and a chain at most 50,000 terms.
(boundary k 1 (1 |100000|))
(boundary k 1 (1 |100001|))
(boundary k 2 (1 |0|-100001|))
(boundary k 2 (1 |100000|1|))
(boundary k 2 (1 |100001|))
(express k 1 (1 |60000|))
(names)
~betti 1 1 0 0 0
homology 1
(1 |)
homology 1
(1 |1|)
homology 0
defined k
field 7
chain (1 |2|) (1 |3|) (6 |5|)
chain (1 |-1|2|) (6 |1|-1|) (1 |1|1|)
chain 0
chain 0
coefficients 5
chain (6 |1|1|) (6 |1|2|) (6 |1|3|) (6 |1|4|)
coefficients 5
chain (1 |1|-2|) (1 |1|-1|)
coefficients 0
chain (6 |1|1|) (6 |1|2|) (1 |1|4|) (1 |1|5|) (1 |1|6|)
coefficients
chain (1 |1|1|3|) (6 |1|1|4|) (1 |1|3|1|) (1 |1|4|1|)
error not-a-cycle (1 |2|)
coefficients 5
chain 0
field 2
coefficients 1
chain (1 |1|1|) (1 |1|2|) (1 |1|3|) (1 |1|4|)
coefficients 0
chain (1 |1|1|) (1 |1|2|) (1 |1|3|)
error simplex 1
error simplex 2
error simplex 1
error simplex 1
chain 0
error over integer 100001
error over integer 100001
error over integer 100001
error simplex 1
error over terms 59999
names k
~klein_bottle~; The Klein bottle: one vertex, three loops, two triangles. The loop c is a followed by b, and also b is c followed by a.
(setf klein (table (v) (a v v) (b v v) (c v v) (s b c a) (t a b c)))
(boundary klein 2 (1 s))
(boundary klein 2 (1 t))

; Over F_2 it can't be told from the torus by counting.
(betti klein 0 3)
(homology klein 1)
(homology klein 2)

; Over F_3 there is no fundamental cycle: the sum of the boundaries is 2 a, so a is a boundary.
(field 3)
(betti klein 0 3)
(homology klein 1)
(express klein 1 (1 a))
(express klein 1 (1 b) (1 c))
(express klein 2 (1 s) (2 t))
(field 5)
(betti klein 0 3)
(express klein 1 (1 a))
~defined klein
chain (1 a) (1 b) (1 c)
chain (1 a) (1 b) (1 c)
betti 1 2 1 0
homology 2
(1 b)
(1 c)
homology 1
(1 s) (1 t)
field 3
betti 1 1 0 0
homology 1
(1 c)
coefficients 0
chain (2 s) (2 t)
coefficients 2
chain (2 s) (1 t)
error not-a-cycle (2 b)
field 5
betti 1 1 0 0
coefficients 0
chain (3 s) (3 t)
~lens_space~; The lens space L(3,1): three tetrahedra round an axis a from p to p, with the rim r from q to q. The lower triangle of each, g, is
; glued to the upper triangle of the next. The walls between them are h. In all 2 vertices, 5 edges, 6 triangles, 3 tetrahedra.
(setf lens (table (p) (q) (a p p) (r q q) (f0 q p) (f1 q p) (f2 q p) (g0 r f1 f0) (g1 r f2 f1) (g2 r f0 f2) (h0 f2 f0 a) (h1 f0 f1 a) (h2 f1 f2 a) (t0 g2 g0 h1 h0) (t1 g0 g1 h2 h1) (t2 g1 g2 h0 h2)))

; Away from 3 it looks like the 3-sphere.
(betti lens 0 3)
(homology lens 3)
(express lens 1 (1 a))

; Over F_3 there is a class in each degree. Axis and rim are the same class.
(field 3)
(betti lens 0 3)
(homology lens 1)
(homology lens 2)
(homology lens 3)
(express lens 1 (1 a))
(express lens 1 (1 a) (-1 r))
(express lens 1 (3 a))
; The three walls bound three times the axis, so modulo 3 they are a cycle.
(boundary lens 2 (1 h0))
(boundary lens 2 (1 h0) (1 h1) (1 h2))
(express lens 2 (1 h0) (1 h1) (1 h2))
(express lens 3 (1 t0) (1 t1) (1 t2))

(field 5)
(betti lens 0 3)
(boundary lens 2 (1 h0) (1 h1) (1 h2))
(express lens 1 (1 a))
(express lens 3 (4 t0) (4 t1) (4 t2))
~defined lens
betti 1 0 0 1
homology 1
(1 t0) (1 t1) (1 t2)
coefficients
chain (1 g0) (1 g1) (1 h0)
field 3
betti 1 1 1 1
homology 1
(1 f1) (2 f2)
homology 1
(1 h0) (1 h1) (1 h2)
homology 1
(1 t0) (1 t1) (1 t2)
coefficients 2
chain (1 g0) (2 g1) (1 h0)
coefficients 0
chain (1 g0) (1 g1) (1 h0)
coefficients 0
chain 0
chain (1 a) (2 f0) (1 f2)
chain 0
coefficients 1
chain 0
coefficients 1
chain 0
field 5
betti 1 0 0 1
chain (3 a)
coefficients
chain (2 g0) (2 g1) (1 g2) (1 h0)
coefficients 4
chain 0
~limits~; Each limit of a session at its bound, and one past it. A line past a limit changes nothing.
; The dimension of a sphere is 1 to 16.
(setf s (sphere 16))
(setf x (sphere 17))
(setf c (sphere 1))
(setf x (sphere 0))
; Degrees go to 16.
(betti s 15 16)
(betti s 15 17)
(homology s 16)
(homology s 17)
; A space is at most 8 constructions deep, and texts of spaces stand at most 16 within one another.
(setf d (suspension (suspension (suspension (suspension (suspension (suspension (suspension (sphere 1)))))))))
(betti d 7 8)
(setf x (suspension d))
(betti (suspension (suspension (suspension (suspension (suspension (suspension (suspension (suspension (suspension (suspension (suspension (suspension (suspension (suspension (suspension (sphere 1)))))))))))))))) 0 1)
(betti (suspension (suspension (suspension (suspension (suspension (suspension (suspension (suspension (suspension (suspension (suspension (suspension (suspension (suspension (suspension (suspension (sphere 1))))))))))))))))) 0 1)
; A table has at most 256 rows, and a row at most 17 faces.
(setf rows (table (v0) (v1) (v2) (v3) (v4) (v5) (v6) (v7) (v8) (v9) (v10) (v11) (v12) (v13) (v14) (v15) (v16) (v17) (v18) (v19) (v20) (v21) (v22) (v23) (v24) (v25) (v26) (v27) (v28) (v29) (v30) (v31) (v32) (v33) (v34) (v35) (v36) (v37) (v38) (v39) (v40) (v41) (v42) (v43) (v44) (v45) (v46) (v47) (v48) (v49) (v50) (v51) (v52) (v53) (v54) (v55) (v56) (v57) (v58) (v59) (v60) (v61) (v62) (v63) (v64) (v65) (v66) (v67) (v68) (v69) (v70) (v71) (v72) (v73) (v74) (v75) (v76) (v77) (v78) (v79) (v80) (v81) (v82) (v83) (v84) (v85) (v86) (v87) (v88) (v89) (v90) (v91) (v92) (v93) (v94) (v95) (v96) (v97) (v98) (v99) (v100) (v101) (v102) (v103) (v104) (v105) (v106) (v107) (v108) (v109) (v110) (v111) (v112) (v113) (v114) (v115) (v116) (v117) (v118) (v119) (v120) (v121) (v122) (v123) (v124) (v125) (v126) (v127) (v128) (v129) (v130) (v131) (v132) (v133) (v134) (v135) (v136) (v137) (v138) (v139) (v140) (v141) (v142) (v143) (v144) (v145) (v146) (v147) (v148) (v149) (v150) (v151) (v152) (v153) (v154) (v155) (v156) (v157) (v158) (v159) (v160) (v161) (v162) (v163) (v164) (v165) (v166) (v167) (v168) (v169) (v170) (v171) (v172) (v173) (v174) (v175) (v176) (v177) (v178) (v179) (v180) (v181) (v182) (v183) (v184) (v185) (v186) (v187) (v188) (v189) (v190) (v191) (v192) (v193) (v194) (v195) (v196) (v197) (v198) (v199) (v200) (v201) (v202) (v203) (v204) (v205) (v206) (v207) (v208) (v209) (v210) (v211) (v212) (v213) (v214) (v215) (v216) (v217) (v218) (v219) (v220) (v221) (v222) (v223) (v224) (v225) (v226) (v227) (v228) (v229) (v230) (v231) (v232) (v233) (v234) (v235) (v236) (v237) (v238) (v239) (v240) (v241) (v242) (v243) (v244) (v245) (v246) (v247) (v248) (v249) (v250) (v251) (v252) (v253) (v254) (v255)))
(betti rows 0 0)
(setf rows (table (v0) (v1) (v2) (v3) (v4) (v5) (v6) (v7) (v8) (v9) (v10) (v11) (v12) (v13) (v14) (v15) (v16) (v17) (v18) (v19) (v20) (v21) (v22) (v23) (v24) (v25) (v26) (v27) (v28) (v29) (v30) (v31) (v32) (v33) (v34) (v35) (v36) (v37) (v38) (v39) (v40) (v41) (v42) (v43) (v44) (v45) (v46) (v47) (v48) (v49) (v50) (v51) (v52) (v53) (v54) (v55) (v56) (v57) (v58) (v59) (v60) (v61) (v62) (v63) (v64) (v65) (v66) (v67) (v68) (v69) (v70) (v71) (v72) (v73) (v74) (v75) (v76) (v77) (v78) (v79) (v80) (v81) (v82) (v83) (v84) (v85) (v86) (v87) (v88) (v89) (v90) (v91) (v92) (v93) (v94) (v95) (v96) (v97) (v98) (v99) (v100) (v101) (v102) (v103) (v104) (v105) (v106) (v107) (v108) (v109) (v110) (v111) (v112) (v113) (v114) (v115) (v116) (v117) (v118) (v119) (v120) (v121) (v122) (v123) (v124) (v125) (v126) (v127) (v128) (v129) (v130) (v131) (v132) (v133) (v134) (v135) (v136) (v137) (v138) (v139) (v140) (v141) (v142) (v143) (v144) (v145) (v146) (v147) (v148) (v149) (v150) (v151) (v152) (v153) (v154) (v155) (v156) (v157) (v158) (v159) (v160) (v161) (v162) (v163) (v164) (v165) (v166) (v167) (v168) (v169) (v170) (v171) (v172) (v173) (v174) (v175) (v176) (v177) (v178) (v179) (v180) (v181) (v182) (v183) (v184) (v185) (v186) (v187) (v188) (v189) (v190) (v191) (v192) (v193) (v194) (v195) (v196) (v197) (v198) (v199) (v200) (v201) (v202) (v203) (v204) (v205) (v206) (v207) (v208) (v209) (v210) (v211) (v212) (v213) (v214) (v215) (v216) (v217) (v218) (v219) (v220) (v221) (v222) (v223) (v224) (v225) (v226) (v227) (v228) (v229) (v230) (v231) (v232) (v233) (v234) (v235) (v236) (v237) (v238) (v239) (v240) (v241) (v242) (v243) (v244) (v245) (v246) (v247) (v248) (v249) (v250) (v251) (v252) (v253) (v254) (v255) (v256)))
(setf t (table (v) (t 14-13-12-11-10-9-8-7-6-5-4-3-2-1-0:v 14-13-12-11-10-9-8-7-6-5-4-3-2-1-0:v 14-13-12-11-10-9-8-7-6-5-4-3-2-1-0:v 14-13-12-11-10-9-8-7-6-5-4-3-2-1-0:v 14-13-12-11-10-9-8-7-6-5-4-3-2-1-0:v 14-13-12-11-10-9-8-7-6-5-4-3-2-1-0:v 14-13-12-11-10-9-8-7-6-5-4-3-2-1-0:v 14-13-12-11-10-9-8-7-6-5-4-3-2-1-0:v 14-13-12-11-10-9-8-7-6-5-4-3-2-1-0:v 14-13-12-11-10-9-8-7-6-5-4-3-2-1-0:v 14-13-12-11-10-9-8-7-6-5-4-3-2-1-0:v 14-13-12-11-10-9-8-7-6-5-4-3-2-1-0:v 14-13-12-11-10-9-8-7-6-5-4-3-2-1-0:v 14-13-12-11-10-9-8-7-6-5-4-3-2-1-0:v 14-13-12-11-10-9-8-7-6-5-4-3-2-1-0:v 14-13-12-11-10-9-8-7-6-5-4-3-2-1-0:v 14-13-12-11-10-9-8-7-6-5-4-3-2-1-0:v)))
(betti t 0 16)
(setf x (table (v) (t 15-14-13-12-11-10-9-8-7-6-5-4-3-2-1-0:v 15-14-13-12-11-10-9-8-7-6-5-4-3-2-1-0:v 15-14-13-12-11-10-9-8-7-6-5-4-3-2-1-0:v 15-14-13-12-11-10-9-8-7-6-5-4-3-2-1-0:v 15-14-13-12-11-10-9-8-7-6-5-4-3-2-1-0:v 15-14-13-12-11-10-9-8-7-6-5-4-3-2-1-0:v 15-14-13-12-11-10-9-8-7-6-5-4-3-2-1-0:v 15-14-13-12-11-10-9-8-7-6-5-4-3-2-1-0:v 15-14-13-12-11-10-9-8-7-6-5-4-3-2-1-0:v 15-14-13-12-11-10-9-8-7-6-5-4-3-2-1-0:v 15-14-13-12-11-10-9-8-7-6-5-4-3-2-1-0:v 15-14-13-12-11-10-9-8-7-6-5-4-3-2-1-0:v 15-14-13-12-11-10-9-8-7-6-5-4-3-2-1-0:v 15-14-13-12-11-10-9-8-7-6-5-4-3-2-1-0:v 15-14-13-12-11-10-9-8-7-6-5-4-3-2-1-0:v 15-14-13-12-11-10-9-8-7-6-5-4-3-2-1-0:v 15-14-13-12-11-10-9-8-7-6-5-4-3-2-1-0:v 15-14-13-12-11-10-9-8-7-6-5-4-3-2-1-0:v)))
; A name has at most 16 bytes, and a number 18 digits.
(setf abcdefghijklmnop c)
(setf abcdefghijklmnopq c)
(betti c 0 999999999999999999)
(betti c 0 9999999999999999999)
; There are eight fields, and the last one is F_19.
(field 19)
(field 23)
; The values of a bundle and the integers of a simplex have magnitude 100,000 at most.
(setf b (bundle (sphere 2) (S2 100000)))
(setf x (bundle (sphere 2) (S2 100001)))
(setf b (bundle (sphere 2) (S2 -100000)))
(setf x (bundle (sphere 2) (S2 -100001)))
(boundary (k-z-1) 1 (1 |100000|))
(boundary (k-z-1) 1 (1 |100001|))
(boundary (k-z-1) 1 (1 |-100000|))
(boundary (k-z-1) 1 (1 |-100001|))
; A chain has at most 50,000 terms. That between a loop of N steps and N loops of one has N - 1.
(field 2)
(homology (bundle (sphere 2) (S2 50001)) 1)
(homology (bundle (sphere 2) (S2 50002)) 1)
(names)
~defined s
error term bad-sphere 17
defined c
error term bad-sphere 0
betti 0 1
error degree 17
homology 1
(1 S16)
error degree 17
defined d
betti 0 1
error term too-deep 9
error term too-deep 9
error syntax
defined rows
betti 256
error table too-many-cells 257
defined t
betti 1 0 0 0 0 0 0 0 0 0 0 0 0 0 0 0 1
error table bad-dimension 1
defined abcdefghijklmnop
error syntax
error degree 999999999999999999
error syntax
field 19
error field 23
defined b
error over integer 100001
defined b
error over integer 100001
chain 0
error over integer 100001
chain 0
error over integer 100001
field 2
homology 0
error over terms 50001
names s c d rows t abcdefghijklmnop b
~moore_spaces~; A circle with a disc whose rim is wound around it three times, and one with a disc that is wound around it five times. The discs
; are cut into triangles: the loop b goes twice along a, c three times and d four times.
(setf three (table (v) (a v v) (b v v) (s a b a) (t a 0:v b)))
(setf five (table (v) (a v v) (b v v) (c v v) (d v v) (s a b a) (t b c a) (u a d c) (w a 0:v d)))
(betti three 0 2)
(betti five 0 2)
(express three 1 (1 a))
(express five 1 (1 a))
(field 3)
(betti three 0 2)
(betti five 0 2)
(homology three 1)
(homology three 2)
(express three 1 (1 a) (1 b))
(express five 1 (1 a))
(field 5)
(betti three 0 2)
(betti five 0 2)
(homology five 2)
(express five 1 (1 d))
(express three 1 (1 a))
(names)
~defined three
defined five
betti 1 0 0
betti 1 0 0
coefficients
chain (1 s) (1 t)
coefficients
chain (1 s) (1 t) (1 u) (1 w)
field 3
betti 1 1 1
betti 1 0 0
homology 1
(1 b)
homology 1
(1 s) (1 t)
coefficients 0
chain (2 s)
coefficients
chain (2 s) (2 t) (2 u) (2 w)
field 5
betti 1 0 0
betti 1 1 1
homology 1
(1 s) (1 t) (1 u) (1 w)
coefficients 1
chain 0
coefficients
chain (2 s) (2 t)
names three five
~names_and_fields~; A name stands for the space that it was set to. Fields change what a chain is, and no name.
(names)
(setf circle (sphere 1))
(setf s2 (sphere 2))
(names)
(setf ball (table (v) (s 0:v 0:v 0:v) (b s 1-0:v 1-0:v 1-0:v)))
(setf disc (table (v) (e v v) (t e e e)))
; A name that is there keeps its place and gets the new space; another name for the old space still has it.
(setf round s2)
(setf s2 (sphere 3))
(names)
(betti s2 0 3)
(betti round 0 3)
(betti ball 0 3)
(betti disc 0 3)
(betti circle 1 1)
(betti circle 1 0)   ; no degree, so no number
; The words of the language may be names too.
(setf sphere (sphere 4))
(betti sphere 4 4)
; All eight fields.
(field 2) ; the field of a new session
(field 3)
(field 5)
(field 7)
(field 11)
(field 13)
(field 17)
(field 19)
(express s2 3 (100 S3))
; Blanks are free around parentheses, and a line may be a comment or empty.
   ( betti(sphere 2)0 2 )\t; tab and spaces

;
(names)
~names
defined circle
defined s2
names circle s2
defined ball
defined disc
defined round
defined s2
names circle s2 ball disc round
betti 1 0 0 1
betti 1 0 1 0
betti 1 0 0 0
betti 1 0 0 0
betti 1
betti
defined sphere
betti 1
field 2
field 3
field 5
field 7
field 11
field 13
field 17
field 19
coefficients 5
chain 0
betti 1 0 1
names circle s2 ball disc round sphere
~parts_of_cycles~; Cycles in their parts, over the field of three elements: coefficients over the listed cycles, and a chain whose boundary is the rest.
(field 3)

; The boundaries of a, b and c are x, 2x and y. So 2x + y is that of 2a + c: b, a combination of what stands before it, is not used.
(setf w (table (v) (x v v) (y v v) (a x 0:v 0:v) (b 0:v x 0:v) (c y 0:v 0:v)))
(homology w 1)
(express w 1 (2 x) (1 y))

; The listed cycle is x + 2y, and the boundary of a is z. So 2x + y + 2z, less twice the listed cycle, is the boundary of 2a.
(setf g (table (v) (w) (x v w) (y v w) (z v v) (a z 0:v 0:v)))
(homology g 1)
(express g 1 (2 x) (1 y) (2 z))
~field 3
defined w
homology 0
coefficients
chain (2 a) (1 c)
defined g
homology 1
(1 x) (2 y)
coefficients 2
chain (2 a)
~products~; The torus as a product of two circles. Its cells are pairs of simplices that are not degenerate at a common place.
(setf torus (crts-prdc (sphere 1) (sphere 1)))
(betti torus 0 3)
(homology torus 2)
(homology torus 1)
(boundary torus 2 (1 <0:S1,1:S1>))

; The diagonal is the sum of the two circles, up to a boundary, in either order of the triangles.
(express torus 1 (1 <S1,S1>))
(field 3)
(homology torus 2)
(express torus 1 (1 <S1,S1>))
(express torus 2 (1 <0:S1,1:S1>) (2 <1:S1,0:S1>))

; Products of spheres of different dimensions, and a product of three circles.
(betti (crts-prdc (sphere 2) (sphere 3)) 0 6)
(homology (crts-prdc (sphere 1) (sphere 2)) 3)
(setf three (crts-prdc (sphere 1) torus))
(betti three 0 4)
(homology three 3)

; Two projective planes: the classes of degree 1 and 2 multiply over F_2, and over other fields there is but a point.
(setf rp2 (table (v) (e v v) (t e 0:v e)))
(betti (crts-prdc rp2 rp2) 0 5)
(field 2)
(betti (crts-prdc rp2 rp2) 0 5)
(homology (crts-prdc rp2 rp2) 1)

; Factors may have infinitely many cells in a degree: K(Z,1) is a circle, and its square a torus.
(setf kk (crts-prdc (k-z-1) (k-z-1)))
(betti kk 0 3)
(homology kk 1)
(homology kk 2)
(express kk 1 (1 <|2|,|3|>))
(express kk 1 (1 <|-1|,0:|>))
(field 5)
(express kk 1 (1 <|2|,|3|>))
~defined torus
betti 1 2 1 0
homology 1
(1 <0:S1,1:S1>) (1 <1:S1,0:S1>)
homology 2
(1 <0:*,S1>)
(1 <S1,0:*>)
chain (1 <S1,S1>) (1 <S1,0:*>) (1 <0:*,S1>)
coefficients 1 1
chain (1 <0:S1,1:S1>)
field 3
homology 1
(2 <0:S1,1:S1>) (1 <1:S1,0:S1>)
coefficients 1 1
chain (2 <0:S1,1:S1>)
coefficients 2
chain 0
betti 1 0 1 1 0 1 0
homology 1
(1 <1-0:S1,2:S2>) (2 <2-0:S1,1:S2>) (1 <2-1:S1,0:S2>)
defined three
betti 1 3 3 1 0
homology 1
(2 <1-0:S1,2:<0:S1,1:S1>>) (1 <1-0:S1,2:<1:S1,0:S1>>) (1 <2-0:S1,1:<0:S1,1:S1>>) (2 <2-0:S1,1:<1:S1,0:S1>>) (2 <2-1:S1,0:<0:S1,1:S1>>) (1 <2-1:S1,0:<1:S1,0:S1>>)
defined rp2
betti 1 0 0 0 0 0
field 2
betti 1 2 3 2 1 0
homology 2
(1 <0:v,e>)
(1 <e,0:v>)
defined kk
betti 1 2 1 0
homology 2
(1 <0:|,|1|>)
(1 <|1|,0:|>)
homology 1
(1 <0:|1|,1:|1|>) (1 <1:|1|,0:|1|>)
coefficients 1 0
chain (1 <|1|1|,1-0:|>) (1 <0:|2|,1:|3|>) (1 <1-0:|,|1|1|>) (1 <1-0:|,|1|2|>)
coefficients 0 1
chain (1 <|1|-1|,1-0:|>)
field 5
coefficients 3 2
chain (4 <|1|1|,1-0:|>) (4 <0:|2|,1:|3|>) (4 <1-0:|,|1|1|>) (4 <1-0:|,|1|2|>)
~projective_plane~; The real projective plane with three cells: a vertex v, a loop e, and a triangle t that runs twice along the loop.
; The middle face of t is the degenerate edge at v.
(setf rp2 (table (v) (e v v) (t e 0:v e)))

; Over F_2 the triangle is a cycle, and the loop is no boundary.
(betti rp2 0 2)
(homology rp2 1)
(homology rp2 2)
(boundary rp2 2 (1 t))
(express rp2 1 (3 e))

; Over F_3 the boundary of t is 2 e. As 2 can be divided by, the loop is a boundary, and the plane looks like a point.
(field 3)
(betti rp2 0 2)
(boundary rp2 2 (1 t))
(express rp2 1 (1 e))
(express rp2 2 (1 t))

; The same over F_5 and F_19, where half of e is another multiple.
(field 5)
(betti rp2 0 2)
(express rp2 1 (1 e))
(field 19)
(express rp2 1 (1 e))
~defined rp2
betti 1 1 1
homology 1
(1 e)
homology 1
(1 t)
chain 0
coefficients 1
chain 0
field 3
betti 1 0 0
chain (2 e)
coefficients
chain (2 t)
error not-a-cycle (2 e)
field 5
betti 1 0 0
coefficients
chain (3 t)
field 19
coefficients
chain (10 t)
~projective_spaces~; Real projective spaces with one cell in each dimension. The first and the last face of a cell are the cell below, and the faces
; between are degeneracies of the cell two below.
(setf rp3 (table (e0) (e1 e0 e0) (e2 e1 0:e0 e1) (e3 e2 0:e1 1:e1 e2)))
(setf rp5 (table (e0) (e1 e0 e0) (e2 e1 0:e0 e1) (e3 e2 0:e1 1:e1 e2) (e4 e3 0:e2 1:e2 2:e2 e3) (e5 e4 0:e3 1:e3 2:e3 3:e3 e4)))
(setf rp16 (table (e0) (e1 e0 e0) (e2 e1 0:e0 e1) (e3 e2 0:e1 1:e1 e2) (e4 e3 0:e2 1:e2 2:e2 e3) (e5 e4 0:e3 1:e3 2:e3 3:e3 e4) (e6 e5 0:e4 1:e4 2:e4 3:e4 4:e4 e5) (e7 e6 0:e5 1:e5 2:e5 3:e5 4:e5 5:e5 e6) (e8 e7 0:e6 1:e6 2:e6 3:e6 4:e6 5:e6 6:e6 e7) (e9 e8 0:e7 1:e7 2:e7 3:e7 4:e7 5:e7 6:e7 7:e7 e8) (e10 e9 0:e8 1:e8 2:e8 3:e8 4:e8 5:e8 6:e8 7:e8 8:e8 e9) (e11 e10 0:e9 1:e9 2:e9 3:e9 4:e9 5:e9 6:e9 7:e9 8:e9 9:e9 e10) (e12 e11 0:e10 1:e10 2:e10 3:e10 4:e10 5:e10 6:e10 7:e10 8:e10 9:e10 10:e10 e11) (e13 e12 0:e11 1:e11 2:e11 3:e11 4:e11 5:e11 6:e11 7:e11 8:e11 9:e11 10:e11 11:e11 e12) (e14 e13 0:e12 1:e12 2:e12 3:e12 4:e12 5:e12 6:e12 7:e12 8:e12 9:e12 10:e12 11:e12 12:e12 e13) (e15 e14 0:e13 1:e13 2:e13 3:e13 4:e13 5:e13 6:e13 7:e13 8:e13 9:e13 10:e13 11:e13 12:e13 13:e13 e14) (e16 e15 0:e14 1:e14 2:e14 3:e14 4:e14 5:e14 6:e14 7:e14 8:e14 9:e14 10:e14 11:e14 12:e14 13:e14 14:e14 e15)))

; Over F_2 every cell is a class.
(betti rp3 0 4)
(betti rp5 0 6)
(betti rp16 0 16)
(homology rp16 16)

; Over other fields there is the vertex, and in odd dimensions the top cell.
(field 3)
(betti rp3 0 4)
(betti rp5 0 6)
(betti rp16 0 16)
(homology rp5 5)
(boundary rp16 16 (1 e16))
(express rp16 15 (1 e15))
(express rp16 16 (1 e16))
(field 17)
(betti rp5 0 6)
(express rp5 3 (1 e3))
~defined rp3
defined rp5
defined rp16
betti 1 1 1 1 0
betti 1 1 1 1 1 1 0
betti 1 1 1 1 1 1 1 1 1 1 1 1 1 1 1 1 1
homology 1
(1 e16)
field 3
betti 1 0 0 1 0
betti 1 0 0 0 0 1 0
betti 1 0 0 0 0 0 0 0 0 0 0 0 0 0 0 0 0
homology 1
(1 e5)
chain (2 e15)
coefficients
chain (2 e16)
error not-a-cycle (2 e15)
field 17
betti 1 0 0 0 0 1 0
coefficients
chain (9 e4)
~refusals~; Each refusal of a line, with its text. A refused line changes nothing, and the session goes on.
; A line that is no command:
(homolgy x 1)
(homology (sphere 3) 3
(field 04)
(names) (names)
; A construction that is not built yet, before every other fault:
(betti (crts-prdc (sphere 0) (loop-space (sphere 2))) 0 2)
(setf k (suspension (loop-space (k-z-1))))
(setf w (suspension (path-space (sphere 0))))
(homology (loop-space nowhere) 99)
(betti (path-space (sphere 2)) 0 3)
(homology (bundle (path-space (sphere 2)) (S3 1)) 3)
; A name without a space, a number that is no prime of the list, a sphere out of range:
(betti nowhere 0 1)
(field 4)
(field 23)
(setf s (sphere 0))
(setf s (sphere 17))
; Tables. Rows and faces are counted from 0.
(setf x (table))
(setf x (table (e e e)))
(setf x (table (v) (e v v) (e v v)))
(setf x (table (v) (e v)))
(setf x (table (v) (e v v) (t e e 0:e)))
(setf x (table (v) (e v v) (t e 1:v e)))
(setf x (table (v) (t v v v)))
(setf x (table (v) (t v v v v v v v v v v v v v v v v v v)))
(setf x (table (v) (e v w) (w)))
(setf x (table (a) (b) (e a b) (t e e e)))
(setf x (table (v0) (v1) (v2) (v3) (v4) (v5) (v6) (v7) (v8) (v9) (v10) (v11) (v12) (v13) (v14) (v15) (v16) (v17) (v18) (v19) (v20) (v21) (v22) (v23) (v24) (v25) (v26) (v27) (v28) (v29) (v30) (v31) (v32) (v33) (v34) (v35) (v36) (v37) (v38) (v39) (v40) (v41) (v42) (v43) (v44) (v45) (v46) (v47) (v48) (v49) (v50) (v51) (v52) (v53) (v54) (v55) (v56) (v57) (v58) (v59) (v60) (v61) (v62) (v63) (v64) (v65) (v66) (v67) (v68) (v69) (v70) (v71) (v72) (v73) (v74) (v75) (v76) (v77) (v78) (v79) (v80) (v81) (v82) (v83) (v84) (v85) (v86) (v87) (v88) (v89) (v90) (v91) (v92) (v93) (v94) (v95) (v96) (v97) (v98) (v99) (v100) (v101) (v102) (v103) (v104) (v105) (v106) (v107) (v108) (v109) (v110) (v111) (v112) (v113) (v114) (v115) (v116) (v117) (v118) (v119) (v120) (v121) (v122) (v123) (v124) (v125) (v126) (v127) (v128) (v129) (v130) (v131) (v132) (v133) (v134) (v135) (v136) (v137) (v138) (v139) (v140) (v141) (v142) (v143) (v144) (v145) (v146) (v147) (v148) (v149) (v150) (v151) (v152) (v153) (v154) (v155) (v156) (v157) (v158) (v159) (v160) (v161) (v162) (v163) (v164) (v165) (v166) (v167) (v168) (v169) (v170) (v171) (v172) (v173) (v174) (v175) (v176) (v177) (v178) (v179) (v180) (v181) (v182) (v183) (v184) (v185) (v186) (v187) (v188) (v189) (v190) (v191) (v192) (v193) (v194) (v195) (v196) (v197) (v198) (v199) (v200) (v201) (v202) (v203) (v204) (v205) (v206) (v207) (v208) (v209) (v210) (v211) (v212) (v213) (v214) (v215) (v216) (v217) (v218) (v219) (v220) (v221) (v222) (v223) (v224) (v225) (v226) (v227) (v228) (v229) (v230) (v231) (v232) (v233) (v234) (v235) (v236) (v237) (v238) (v239) (v240) (v241) (v242) (v243) (v244) (v245) (v246) (v247) (v248) (v249) (v250) (v251) (v252) (v253) (v254) (v255) (v256)))
(names)
; Bundles: the base, then the pairs one by one, then whether the values are closed. Pairs are counted from 1, rows from 0.
(setf x (bundle (k-z-1) (S2 1)))
(setf x (bundle (suspension (sphere 1)) (S2 1)))
(setf x (bundle (sphere 2) (S2 1) (S3 100001)))
(setf x (bundle (sphere 2) (S2 1) (S2 100001)))
(setf x (bundle (sphere 2) (S2 -100001)))
(setf x (bundle (table (v) (t 0:v 0:v 0:v) (w t 1-0:v 1-0:v 1-0:v)) (t 1)))
; Products: the left part, then the right one, then the depth of the whole.
(setf x (crts-prdc (sphere 0) (sphere 17)))
(setf x (crts-prdc (sphere 1) (sphere 17)))
(setf x (crts-prdc (k-z-1) (suspension (suspension (suspension (suspension (suspension (suspension (suspension (sphere 1))))))))))
(setf x (suspension (crts-prdc (sphere 1) (table (a) (b)))))
; Degrees: the first one above 16.
(homology (sphere 3) 17)
(betti (sphere 3) 0 20)
(betti (sphere 3) 18 20)
(betti (sphere 3) 18 3)
; Terms of a chain that are no simplices in the degree, by number from 1:
(boundary (sphere 2) 2 (1 S3))
(boundary (sphere 2) 2 (1 S2) (1 1-0:*) (1 0-1:*))
(boundary (sphere 2) 1 (1 S2))
(boundary (sphere 2) 2 (1 |1|2|))
; A chain that is no cycle, with the first term of its boundary:
(setf rp2 (table (v) (e v v) (t e 0:v e)))
(field 3)
(express rp2 2 (1 t))
; The first fault is the one that is told: the space, then the degrees, then the terms, then whether the chain is a cycle.
(express nowhere 17 (1 x))
(express rp2 17 (1 x))
(express rp2 2 (1 t) (1 x))
(names)
(field 3)
~error syntax
error syntax
error syntax
error syntax
error not-built
error not-built
error not-built
error not-built
error not-built
error not-built
error unknown-name nowhere
error field 4
error field 23
error term bad-sphere 0
error term bad-sphere 17
error table no-vertex
error table no-vertex
error table duplicate-cell 2
error table bad-dimension 1
error table bad-dimension 2
error table bad-dimension 2
error table bad-dimension 1
error table bad-dimension 1
error table unknown-cell 1 1
error table face-law 3 0 2
error table too-many-cells 257
names
error term base-not-table
error term base-not-table
error cocycle unknown-cell 2
error cocycle repeated-cell 2
error over integer 100001
error cocycle not-closed 2 1
error term bad-sphere 0
error term bad-sphere 17
error term too-deep 9
error term not-one-vertex 2
error degree 17
error degree 20
error degree 18
error degree 18
error simplex 1
error simplex 3
error simplex 1
error simplex 1
defined rp2
field 3
error not-a-cycle (2 e)
error unknown-name nowhere
error degree 17
error simplex 2
names rp2
field 3
~seven_vertex_torus~; The torus of Moebius and Csaszar: 7 vertices, 21 edges, 14 triangles. The triangles are i, i+1, i+3 and i, i+2, i+3 modulo 7.
; Vertices are ordered by their numbers; the faces of t013 are e13, e03, e01 in this order.
(setf torus (table (v0) (v1) (v2) (v3) (v4) (v5) (v6) (e01 v1 v0) (e02 v2 v0) (e03 v3 v0) (e04 v4 v0) (e05 v5 v0) (e06 v6 v0) (e12 v2 v1) (e13 v3 v1) (e14 v4 v1) (e15 v5 v1) (e16 v6 v1) (e23 v3 v2) (e24 v4 v2) (e25 v5 v2) (e26 v6 v2) (e34 v4 v3) (e35 v5 v3) (e36 v6 v3) (e45 v5 v4) (e46 v6 v4) (e56 v6 v5) (t013 e13 e03 e01) (t015 e15 e05 e01) (t023 e23 e03 e02) (t026 e26 e06 e02) (t045 e45 e05 e04) (t046 e46 e06 e04) (t124 e24 e14 e12) (t126 e26 e16 e12) (t134 e34 e14 e13) (t156 e56 e16 e15) (t235 e35 e25 e23) (t245 e45 e25 e24) (t346 e46 e36 e34) (t356 e56 e36 e35)))
(betti torus 0 2)
(homology torus 2)

; Over F_3 the triangles are oriented by their coefficients.
(field 3)
(betti torus 0 2)
(homology torus 1)
(homology torus 2)

; The seven edges i, i+1 make one closed path. Its class, and a chain that bounds the rest.
(express torus 1 (1 e01) (1 e12) (1 e23) (1 e34) (1 e45) (1 e56) (-1 e06))
; The boundary of one triangle, and a path that is not closed.
(express torus 1 (1 e13) (-1 e03) (1 e01))
(express torus 1 (1 e01) (1 e12) (1 e23))
; Any two vertices are joined.
(express torus 0 (1 v0) (-1 v6))
~defined torus
betti 1 2 1
homology 1
(1 t013) (1 t015) (1 t023) (1 t026) (1 t045) (1 t046) (1 t124) (1 t126) (1 t134) (1 t156) (1 t235) (1 t245) (1 t346) (1 t356)
field 3
betti 1 2 1
homology 2
(1 e25) (2 e26) (1 e56)
(1 e45) (2 e46) (1 e56)
homology 1
(1 t013) (2 t015) (2 t023) (1 t026) (1 t045) (2 t046) (1 t124) (2 t126) (2 t134) (1 t156) (1 t235) (2 t245) (1 t346) (2 t356)
coefficients 1 2
chain (2 t013) (2 t015) (1 t023) (2 t026) (1 t045) (2 t046) (2 t124) (2 t126) (1 t134) (1 t156) (1 t245)
coefficients 0 0
chain (1 t013)
error not-a-cycle (2 v0)
coefficients 0
chain (2 e06)
~six_vertex_projective_plane~; The projective plane with the fewest vertices: 6 vertices, all 15 edges, 10 triangles (half of the icosahedron's boundary).
(setf rp2 (table (v1) (v2) (v3) (v4) (v5) (v6) (e12 v2 v1) (e13 v3 v1) (e14 v4 v1) (e15 v5 v1) (e16 v6 v1) (e23 v3 v2) (e24 v4 v2) (e25 v5 v2) (e26 v6 v2) (e34 v4 v3) (e35 v5 v3) (e36 v6 v3) (e45 v5 v4) (e46 v6 v4) (e56 v6 v5) (t123 e23 e13 e12) (t126 e26 e16 e12) (t134 e34 e14 e13) (t145 e45 e15 e14) (t156 e56 e16 e15) (t235 e35 e25 e23) (t245 e45 e25 e24) (t246 e46 e26 e24) (t346 e46 e36 e34) (t356 e56 e36 e35)))
(betti rp2 0 2)
(homology rp2 1)
(homology rp2 2)
; A path once around: it is no boundary over F_2, and twice around is 0.
(express rp2 1 (1 e12) (1 e24) (1 e14))
(express rp2 1 (2 e12) (2 e24) (2 e14))

; Over F_3 the same path is a boundary.
(field 3)
(betti rp2 0 2)
(express rp2 1 (1 e12) (1 e24) (-1 e14))
(field 5)
(betti rp2 0 2)
(boundary rp2 2 (1 t123) (1 t134) (1 t145) (1 t156) (-1 t126))
~defined rp2
betti 1 1 1
homology 1
(1 e45) (1 e46) (1 e56)
homology 1
(1 t123) (1 t126) (1 t134) (1 t145) (1 t156) (1 t235) (1 t245) (1 t246) (1 t346) (1 t356)
coefficients 1
chain (1 t126) (1 t145) (1 t156) (1 t246)
coefficients 0
chain 0
field 3
betti 1 0 0
coefficients
chain (2 t123) (2 t126) (2 t134) (1 t145) (1 t156) (1 t235) (2 t245) (2 t246) (1 t346) (2 t356)
field 5
betti 1 0 0
chain (1 e23) (4 e26) (1 e34) (1 e45) (1 e56)
~spheres~; Spheres. The sphere of dimension n has two cells: the vertex * and one cell Sn, whose faces all lie in the vertex.
(betti (sphere 1) 0 3)
(betti (sphere 3) 0 4)
(homology (sphere 3) 3)
(homology (sphere 3) 0)  ; homology is not reduced: the vertex is listed
(homology (sphere 3) 2)  ; no cell, so no cycle
(boundary (sphere 2) 2 (1 S2))

; The largest sphere.
(setf s (sphere 16))
(betti s 14 16)
(homology s 16)

; A chain may name degenerate simplices, which count as 0; equal cells add up, and numbers are taken modulo the prime.
(field 7)
(express (sphere 2) 2 (5 S2) (4 S2) (3 1-0:*))
(express (sphere 2) 2 (-1 S2))
(express (sphere 2) 1 (1 0:*))
(express (sphere 2) 0 (10 *))
(boundary (sphere 2) 2 0)
~betti 1 1 0 0
betti 1 0 0 1 0
homology 1
(1 S3)
homology 1
(1 *)
homology 0
chain 0
defined s
betti 0 0 1
homology 1
(1 S16)
field 7
coefficients 2
chain 0
coefficients 6
chain 0
coefficients
chain 0
coefficients 3
chain 0
chain 0
~suspensions~; The suspension of a space with one vertex: its base *, and a cell ^x one degree up for each cell x of positive dimension. Homology is not
; reduced: degree 0 has the class of the base, and degree 1 has none.
(betti (suspension (k-z-1)) 0 3)
(homology (suspension (k-z-1)) 0)
(homology (suspension (k-z-1)) 2)
(betti (suspension (sphere 2)) 0 4)
(homology (suspension (sphere 2)) 3)
(betti (suspension (suspension (k-z-1))) 0 4)
(homology (suspension (suspension (k-z-1))) 3)
; The projective plane and its suspension: over F_3 twice the loop bounds, so the loop does.
(setf rp2 (table (v) (e v v) (t e 0:v e)))
(setf s (suspension rp2))
(betti s 0 3)
(homology s 3)
(boundary s 3 (1 ^t))
(field 3)
(betti s 0 3)
(boundary s 3 (1 ^t))
(express s 2 (1 ^e))
(express s 3 (1 ^t))
; Lists of integers, suspended: d_i of ^x is ^ of d_(i-1) of x, and d_0 is the base.
(field 7)
(setf k (suspension (k-z-1)))
(boundary k 3 (1 ^|2|3|))
(express k 2 (1 ^|5|))
(express k 2 (1 ^|-2|))
(boundary (suspension k) 4 (1 ^^|2|3|))
; ^ of a degeneracy is a degeneracy, and of those of the vertex that of the base: all of them count as 0.
(boundary k 3 (1 ^0:|4|) (1 1:^|4|) (1 ^|0|4|))
(boundary k 2 (1 ^0:|) (1 1-0:*) (1 ^|0|))
(boundary k 0 (1 *))
(express k 0 (4 *) (5 *))
(boundary k 1 (1 *))
(boundary k 2 (1 |5|))
(boundary k 3 (1 ^|5|))
(boundary k 2 (1 ^|100001|))
(express k 2 (1 ^|60000|))
; A name keeps what it stood for.
(setf rp2 (sphere 1))
(betti s 0 3)
(field 2)
(betti s 0 3)
; The part has one vertex, and a space is nested at most 8 deep; parts come before the whole, and the space before the degrees.
(setf x (suspension (table (a) (b))))
(homology (suspension (table (a) (b))) 17)
(setf x (suspension (sphere 17)))
(setf x (suspension (table (e e e))))
(setf x (suspension nowhere))
(setf x (suspension (loop-space (sphere 2))))
(setf seven (suspension (suspension (suspension (suspension (suspension (suspension (suspension (sphere 1)))))))))
(betti seven 0 9)
(homology seven 8)
(setf x (suspension (suspension (suspension (suspension (suspension (suspension (suspension (suspension (sphere 1))))))))))
(setf x (suspension seven))
(setf x (suspension (suspension seven)))
(betti (suspension (suspension (suspension (suspension (suspension (suspension (suspension (suspension (sphere 17))))))))) 0 3)
(names)
~betti 1 0 1 0
homology 1
(1 *)
homology 1
(1 ^|1|)
betti 1 0 0 1 0
homology 1
(1 ^S2)
betti 1 0 0 1 0
homology 1
(1 ^^|1|)
defined rp2
defined s
betti 1 0 1 1
homology 1
(1 ^t)
chain 0
field 3
betti 1 0 0 0
chain (1 ^e)
coefficients
chain (1 ^t)
error not-a-cycle (1 ^e)
field 7
defined k
chain (6 ^|2|) (6 ^|3|) (1 ^|5|)
coefficients 5
chain (1 ^|1|1|) (1 ^|1|2|) (1 ^|1|3|) (1 ^|1|4|)
coefficients 5
chain (6 ^|1|-2|) (6 ^|1|-1|)
chain (1 ^^|2|) (1 ^^|3|) (6 ^^|5|)
chain 0
chain 0
chain 0
coefficients 2
chain 0
error simplex 1
error simplex 1
error simplex 1
error over integer 100001
error over terms 59999
defined rp2
betti 1 0 0 0
field 2
betti 1 0 1 1
error term not-one-vertex 2
error term not-one-vertex 2
error term bad-sphere 17
error table no-vertex
error unknown-name nowhere
error not-built
defined seven
betti 1 0 0 0 0 0 0 0 1 0
homology 1
(1 ^^^^^^^S1)
error term too-deep 9
error term too-deep 9
error term too-deep 9
error term bad-sphere 17
names rp2 s k seven
~torus~; The torus: one vertex, three loops, two triangles. The loop c is a followed by b, and b followed by a.
(setf torus (table (v) (a v v) (b v v) (c v v) (s b c a) (t a c b)))
(betti torus 0 3)

; The fundamental cycle is the difference of the triangles, and the two sides of the square are listed in degree 1 up to a boundary.
(field 5)
(betti torus 0 3)
(homology torus 2)
(homology torus 1)
(express torus 1 (1 a))
(express torus 1 (1 a) (1 b) (-1 c))
(express torus 2 (3 s) (-3 t))
(express torus 2 (1 s) (1 t))

; A wedge of two circles and a 2-sphere has the same Betti numbers. Homology alone does not see the product.
(setf wedge (table (v) (a v v) (b v v) (s 0:v 0:v 0:v)))
(betti wedge 0 3)
~defined torus
betti 1 2 1 0
field 5
betti 1 2 1 0
homology 1
(1 s) (4 t)
homology 2
(1 b)
(1 c)
coefficients 4 1
chain (1 s)
coefficients 0 0
chain (1 s)
coefficients 3
chain 0
error not-a-cycle (2 a)
defined wedge
betti 1 2 1 0
~wedge_of_spheres~; A wedge of a circle, two 2-spheres and a 3-sphere: each has one cell beside the common vertex.
(setf wedge (table (v) (a v v) (b 0:v 0:v 0:v) (c 0:v 0:v 0:v) (d 1-0:v 1-0:v 1-0:v 1-0:v)))
(betti wedge 0 4)
(homology wedge 2)
(field 11)
(homology wedge 1)
(homology wedge 2)
(homology wedge 3)
; Every chain of positive degree is a cycle, and none but 0 is a boundary.
(express wedge 2 (3 b) (-4 c))
(express wedge 2 (3 c) (1 b) (8 c))
(boundary wedge 3 (6 d))

; One 3-cell more, along b: its faces are b, and the degenerate triangles at v. It fills b.
(setf filled (table (v) (a v v) (b 0:v 0:v 0:v) (c 0:v 0:v 0:v) (d 1-0:v 1-0:v 1-0:v 1-0:v) (f b 1-0:v 1-0:v 1-0:v)))
(betti filled 0 4)
(express filled 2 (3 b) (-4 c))
(homology filled 3)
~defined wedge
betti 1 1 2 1 0
homology 2
(1 b)
(1 c)
field 11
homology 1
(1 a)
homology 2
(1 b)
(1 c)
homology 1
(1 d)
coefficients 3 7
chain 0
coefficients 1 0
chain 0
chain 0
defined filled
betti 1 1 1 1 0
coefficients 7
chain (3 f)
homology 1
(1 d)
~README: The field matters~(setf rp2 (table (v) (e v v) (t e 0:v e)))
(betti rp2 0 2)
(field 3)
(betti rp2 0 2)
(express rp2 1 (1 e))
~defined rp2
betti 1 1 1
field 3
betti 1 0 0
coefficients
chain (2 t)
~README: Infinitely many cells~(field 7)
(betti (k-z-1) 0 4)
(express (k-z-1) 1 (1 |5|))
~field 7
betti 1 1 0 0 0
coefficients 5
chain (6 |1|1|) (6 |1|2|) (6 |1|3|) (6 |1|4|)
~README: The Hopf bundle~(setf hopf (bundle (sphere 2) (S2 1)))
(betti hopf 0 4)
(express hopf 1 (1 <0:*,|1|>))
~defined hopf
betti 1 0 0 1 0
coefficients
chain (1 <S2,1-0:|>)
~tour: 1. Spheres~(homology (sphere 3) 3)
(homology (sphere 3) 0)
(homology (sphere 3) 2)
(betti (sphere 3) 0 4)
(field 7)
(express (sphere 2) 2 (5 S2) (4 S2))
(express (sphere 2) 2 (1 S2) (3 1-0:*))
(homology (sphere 0) 1)
(homology (sphere 3) 17)
(boundary (sphere 2) 2 (1 S3))
~homology 1
(1 S3)
homology 1
(1 *)
homology 0
betti 1 0 0 1 0
field 7
coefficients 2
chain 0
coefficients 1
chain 0
error term bad-sphere 0
error degree 17
error simplex 1
~tour: 2. A table of your own~(setf square (table (a) (b) (c) (d) (ab b a) (bc c b) (cd d c) (da a d) (ac c a)))
(betti square 0 1)
(homology square 1)
(field 3)
(homology square 1)
(express square 1 (1 ab) (1 bc) (1 cd) (1 da))
(express square 1 (1 ab) (1 bc))
(setf filled (table (a) (b) (c) (d) (ab b a) (bc c b) (cd d c) (da a d) (ac c a) (abc bc ac ab)))
(betti filled 0 2)
(boundary filled 2 (1 abc))
(express filled 1 (1 ab) (1 bc) (1 cd) (1 da))
(setf sphere (table (v) (s 0:v 0:v 0:v)))
(betti sphere 0 2)
(setf bad (table (a) (b) (e a b) (t e e e)))
~defined square
betti 1 2
homology 2
(1 ab) (1 bc) (1 ac)
(1 cd) (1 da) (1 ac)
field 3
homology 2
(1 ab) (1 bc) (2 ac)
(1 cd) (1 da) (1 ac)
coefficients 1 1
chain 0
error not-a-cycle (2 a)
defined filled
betti 1 1 0
chain (1 ab) (1 bc) (2 ac)
coefficients 1
chain (1 abc)
defined sphere
betti 1 0 1
error table face-law 3 0 2
~tour: 3. The projective plane and the choice of the field~(setf rp2 (table (v) (e v v) (t e 0:v e)))
(betti rp2 0 2)
(boundary rp2 2 (1 t))
(homology rp2 2)
(field 3)
(betti rp2 0 2)
(boundary rp2 2 (1 t))
(express rp2 1 (1 e))
(express rp2 2 (1 t))
(field 5)
(betti rp2 0 2)
(express rp2 1 (1 e))
~defined rp2
betti 1 1 1
chain 0
homology 1
(1 t)
field 3
betti 1 0 0
chain (2 e)
coefficients
chain (2 t)
error not-a-cycle (2 e)
field 5
betti 1 0 0
coefficients
chain (3 t)
~tour: 4. The torus and the Klein bottle~(setf torus (table (v) (a v v) (b v v) (c v v) (s b c a) (t a c b)))
(betti torus 0 2)
(setf klein (table (v) (a v v) (b v v) (c v v) (s b c a) (t a b c)))
(betti klein 0 2)
(field 5)
(betti torus 0 2)
(betti klein 0 2)
(homology torus 2)
(express klein 1 (1 a))
(homology torus 1)
(express torus 1 (1 a))
(express torus 1 (1 a) (1 b) (-1 c))
~defined torus
betti 1 2 1
defined klein
betti 1 2 1
field 5
betti 1 2 1
betti 1 1 0
homology 1
(1 s) (4 t)
coefficients 0
chain (3 s) (3 t)
homology 2
(1 b)
(1 c)
coefficients 4 1
chain (1 s)
coefficients 0 0
chain (1 s)
~tour: 5. Triangulated surfaces~(setf s2 (table (v0) (v1) (v2) (v3) (e01 v1 v0) (e02 v2 v0) (e03 v3 v0) (e12 v2 v1) (e13 v3 v1) (e23 v3 v2) (t012 e12 e02 e01) (t013 e13 e03 e01) (t023 e23 e03 e02) (t123 e23 e13 e12)))
(betti s2 0 2)
(field 3)
(homology s2 2)
(express s2 1 (1 e01) (1 e13) (1 e23) (-1 e02))
(express s2 1 (1 e01) (1 e13) (-1 e23) (-1 e02))
~defined s2
betti 1 0 1
field 3
homology 1
(1 t012) (2 t013) (1 t023) (2 t123)
error not-a-cycle (1 v2)
coefficients
chain (1 t013) (2 t023)
~tour: 6. A lens space~(setf lens (table (p) (q) (a p p) (r q q) (f0 q p) (f1 q p) (f2 q p) (g0 r f1 f0) (g1 r f2 f1) (g2 r f0 f2) (h0 f2 f0 a) (h1 f0 f1 a) (h2 f1 f2 a) (t0 g2 g0 h1 h0) (t1 g0 g1 h2 h1) (t2 g1 g2 h0 h2)))
(betti lens 0 3)
(field 3)
(betti lens 0 3)
(homology lens 2)
(boundary lens 2 (1 h0) (1 h1) (1 h2))
(express lens 1 (1 a))
(express lens 1 (1 a) (-1 r))
(field 5)
(betti lens 0 3)
(boundary lens 2 (1 h0) (1 h1) (1 h2))
(homology lens 3)
~defined lens
betti 1 0 0 1
field 3
betti 1 1 1 1
homology 1
(1 h0) (1 h1) (1 h2)
chain 0
coefficients 2
chain (1 g0) (2 g1) (1 h0)
coefficients 0
chain (1 g0) (1 g1) (1 h0)
field 5
betti 1 0 0 1
chain (3 a)
homology 1
(1 t0) (1 t1) (1 t2)
~tour: 7. K(Z,1)~(setf k (k-z-1))
(field 7)
(boundary k 2 (1 |2|3|))
(boundary k 2 (1 |0|3|) (1 0:|4|))
(boundary k 1 (1 |2|3|))
(betti k 0 4)
(homology k 1)
(homology k 0)
(express k 1 (1 |5|))
(express k 1 (1 |-2|))
(express k 2 (1 |2|3|))
(express k 1 (1 |60000|))
(boundary k 1 (1 |100001|))
(boundary k 2 (1 |100000|1|))
(boundary k 1 (1 |100000|))
~defined k
field 7
chain (1 |2|) (1 |3|) (6 |5|)
chain 0
error simplex 1
betti 1 1 0 0 0
homology 1
(1 |1|)
homology 1
(1 |)
coefficients 5
chain (6 |1|1|) (6 |1|2|) (6 |1|3|) (6 |1|4|)
coefficients 5
chain (1 |1|-2|) (1 |1|-1|)
error not-a-cycle (1 |2|)
error over terms 59999
error over integer 100001
error over integer 100001
chain 0
~tour: 8. Suspensions~(betti (suspension (sphere 2)) 0 4)
(homology (suspension (sphere 2)) 3)
(homology (suspension (sphere 2)) 0)
(setf rp2 (table (v) (e v v) (t e 0:v e)))
(setf s (suspension rp2))
(betti s 0 3)
(field 3)
(betti s 0 3)
(boundary s 3 (1 ^t))
(express s 2 (1 ^e))
(setf k (suspension (k-z-1)))
(betti k 0 3)
(homology k 2)
(express k 2 (1 ^|5|))
(homology (suspension k) 3)
(boundary k 3 (1 ^0:|4|))
(setf x (suspension (table (a) (b))))
(homology (suspension (sphere 17)) 17)
(setf x (suspension (suspension (suspension (suspension (suspension (suspension (suspension (suspension (sphere 1))))))))))
~betti 1 0 0 1 0
homology 1
(1 ^S2)
homology 1
(1 *)
defined rp2
defined s
betti 1 0 1 1
field 3
betti 1 0 0 0
chain (1 ^e)
coefficients
chain (1 ^t)
defined k
betti 1 0 1 0
homology 1
(1 ^|1|)
coefficients 2
chain (1 ^|1|1|) (1 ^|1|2|) (1 ^|1|3|) (1 ^|1|4|)
homology 1
(1 ^^|1|)
chain 0
error term not-one-vertex 2
error term bad-sphere 17
error term too-deep 9
~tour: 9. Products, and the torus~(setf torus (crts-prdc (sphere 1) (sphere 1)))
(betti torus 0 3)
(homology torus 1)
(homology torus 2)
(boundary torus 2 (1 <0:S1,1:S1>))
(field 3)
(homology torus 2)
(express torus 1 (1 <S1,S1>))
(express torus 2 (1 <1:S1,0:S1>) (-1 <0:S1,1:S1>))
(setf rp2 (table (v) (e v v) (t e 0:v e)))
(betti (crts-prdc rp2 rp2) 0 4)
(field 2)
(betti (crts-prdc rp2 rp2) 0 4)
(field 5)
(setf k (crts-prdc (k-z-1) (k-z-1)))
(betti k 0 3)
(homology k 1)
(express k 1 (1 <|2|,|3|>))
(boundary torus 1 (1 <S1,*>))
(boundary torus 1 (1 <0:*,0:*>))
~defined torus
betti 1 2 1 0
homology 2
(1 <0:*,S1>)
(1 <S1,0:*>)
homology 1
(1 <0:S1,1:S1>) (1 <1:S1,0:S1>)
chain (1 <S1,S1>) (1 <S1,0:*>) (1 <0:*,S1>)
field 3
homology 1
(2 <0:S1,1:S1>) (1 <1:S1,0:S1>)
coefficients 1 1
chain (2 <0:S1,1:S1>)
coefficients 1
chain 0
defined rp2
betti 1 0 0 0 0
field 2
betti 1 2 3 2 1
field 5
defined k
betti 1 2 1 0
homology 2
(1 <0:|,|1|>)
(1 <|1|,0:|>)
coefficients 3 2
chain (4 <|1|1|,1-0:|>) (4 <0:|2|,1:|3|>) (4 <1-0:|,|1|1|>) (4 <1-0:|,|1|2|>)
error simplex 1
chain 0
~tour: 10. Circle bundles: the Hopf bundle~(setf hopf (bundle (sphere 2) (S2 1)))
(betti hopf 0 4)
(homology hopf 3)
(boundary hopf 2 (1 <S2,1-0:|>))
(express hopf 1 (1 <0:*,|1|>))
(setf product (bundle (sphere 2)))
(betti product 0 3)
(express product 1 (1 <0:*,|1|>))
~defined hopf
betti 1 0 0 1 0
homology 1
(1 <0:S2,2-1:|1|>) (1 <1:S2,2-0:|1|>) (1 <2:S2,1-0:|1|>)
chain (1 <0:*,|1|>)
coefficients
chain (1 <S2,1-0:|>)
defined product
betti 1 1 1 1
coefficients 1
chain 0
~tour: 11. Lens spaces~(setf rp3 (bundle (sphere 2) (S2 2)))
(betti rp3 0 3)
(homology rp3 2)
(boundary rp3 2 (1 <S2,1-0:|>))
(field 3)
(betti rp3 0 3)
(setf lens (bundle (sphere 2) (S2 3)))
(betti lens 0 3)
(express lens 1 (1 <0:*,|2|>))
(field 2)
(betti lens 0 3)
(betti (bundle (sphere 2) (S2 -2)) 0 3)
(betti (bundle (sphere 2) (S2 -3)) 0 3)
(setf b (bundle (sphere 2) (S2 100000)))
(betti b 0 3)
(setf b (bundle (sphere 2) (S2 100001)))
(betti (bundle (sphere 2) (S2 1000)) 0 3)
~defined rp3
betti 1 1 1 1
homology 1
(1 <S2,1-0:|>) (1 <1-0:*,|1|1|>)
chain (1 <0:*,|2|>)
field 3
betti 1 0 0 1
defined lens
betti 1 1 1 1
coefficients 2
chain (2 <1-0:*,|1|1|>)
field 2
betti 1 0 0 1
betti 1 1 1 1
betti 1 0 0 1
defined b
error over terms 99999
error over integer 100001
betti 1 1 1 1
~tour: 12. A nilmanifold~(setf torus (table (v) (a v v) (b v v) (c v v) (s b c a) (t a c b)))
(setf nil (bundle torus (s 1)))
(betti nil 0 4)
(betti (bundle torus) 0 4)
(express nil 1 (1 <0:v,|1|>))
(betti (bundle torus (s 1) (t 1)) 0 3)
(setf nil2 (bundle torus (s 2)))
(betti nil2 0 3)
(field 3)
(betti nil2 0 3)
(setf b (bundle (k-z-1)))
(setf b (bundle torus (a 1)))
(setf b (bundle torus (s 1) (s 1)))
(setf w (table (v) (t 0:v 0:v 0:v) (w t 1-0:v 1-0:v 1-0:v)))
(setf b (bundle w (t 1)))
~defined torus
defined nil
betti 1 2 2 1 0
betti 1 3 3 1 0
coefficients 0 0
chain (1 <s,1-0:|>) (1 <t,1-0:|>) (1 <0:b,1:|1|>)
betti 1 3 3 1
defined nil2
betti 1 3 3 1
field 3
betti 1 2 2 1
error term base-not-table
error cocycle unknown-cell 1
error cocycle repeated-cell 2
defined w
error cocycle not-closed 2 1
~tour: 13. What an answer claims, and what comes next~(betti (loop-space (sphere 2)) 0 3)
~error not-built
~language: Scripts, lines, replies~; a comment
(field 3)   ; from here on over F_3
(names)
~field 3
names
~language: Commands~(setf rp2 (table (v) (e v v) (t e 0:v e)))
(betti rp2 0 2)
(homology rp2 1)
(field 3)
(betti rp2 0 2)
(betti rp2 2 0)
(boundary rp2 2 (1 t))
(express rp2 1 (1 e))
(setf torus (table (v) (a v v) (b v v) (c v v) (s b c a) (t a c b)))
(homology torus 1)
(express torus 1 (1 a) (1 b))
(express torus 1 (1 a))
~defined rp2
betti 1 1 1
homology 1
(1 e)
field 3
betti 1 0 0
betti
chain (2 e)
coefficients
chain (2 t)
defined torus
homology 2
(1 b)
(1 c)
coefficients 0 1
chain (1 s)
coefficients 2 1
chain (1 s)
~language: Spaces~(betti (suspension (k-z-1)) 0 3)
(homology (suspension (k-z-1)) 2)
(homology (suspension (table (a) (b))) 17)
(setf s (sphere 2))
(setf old s)
(setf s (sphere 3))
(names)
(betti old 0 3)
(betti s 0 3)
~betti 1 0 1 0
homology 1
(1 ^|1|)
error term not-one-vertex 2
defined s
defined old
defined s
names s old
betti 1 0 1 0
betti 1 0 0 1
~language: Tables~(setf disc (table (a) (b) (c) (ab b a) (bc c b) (ac c a) (abc bc ac ab)))
(betti disc 0 2)
(boundary disc 2 (1 abc))
(setf sphere (table (v) (s 0:v 0:v 0:v)))
(betti sphere 0 2)
(betti (table (v) (e v v)) 0 1)
~defined disc
betti 1 0 0
chain (1 ab) (1 bc) (1 ac)
defined sphere
betti 1 0 1
betti 1 1
~language: Simplices and chains~(boundary (sphere 2) 2 (1 S2))
(field 5)
(express (sphere 2) 2 (3 S2) (4 S2) (1 1-0:*))
(express (sphere 2) 2 (-1 S2))
(express (sphere 2) 0 (100 *))
(boundary (sphere 2) 2 0)
(boundary (k-z-1) 2 (1 |2|3|) (1 |0|4|))
(boundary (suspension (k-z-1)) 3 (1 ^|2|3|) (1 ^0:|4|))
(setf p (crts-prdc (sphere 1) (k-z-1)))
(field 3)
(boundary p 2 (1 <0:S1,|1|2|>) (1 <0:S1,1:|4|>) (1 <1-0:*,|0|7|>) (1 <0:S1,0:|4|>))
(setf b (bundle (sphere 2) (S2 5)))
(boundary b 2 (1 <S2,|0|0|>) (1 <S2,|1|2|>))
~chain 0
field 5
coefficients 2
chain 0
coefficients 4
chain 0
coefficients 0
chain 0
chain 0
chain (1 |2|) (1 |3|) (4 |5|)
chain (4 ^|2|) (4 ^|3|) (1 ^|5|)
defined p
field 3
chain (1 <S1,|2|>) (2 <S1,|3|>) (2 <S1,|4|>) (1 <S1,0:|>) (1 <0:*,|1|>) (1 <0:*,|4|>)
defined b
chain (1 <0:*,|1|>) (2 <0:*,|3|>) (1 <0:*,|5|>) (1 <0:*,|7|>)
~language: Refusals~(homolgy x 1)
(homology (sphere 3) 3
(field 04)
(names) (names)
(setf 2x (sphere 2))
(boundary (sphere 2) 2)
(boundary (sphere 2) 2 (-0 S2))
(betti (loop-space (sphere 2)) 0 2)
(homology (loop-space nowhere) 99)
(setf k (suspension (path-space (sphere 0))))
(betti x 0 1)
(field 4)
(betti (sphere 0) 0 1)
(setf s (sphere 17))
(setf x (suspension (table (a) (b))))
(setf x (suspension (suspension (suspension (suspension (suspension (suspension (suspension (suspension (sphere 1))))))))))
(setf x (suspension (sphere 17)))
(setf x (crts-prdc (sphere 0) (sphere 17)))
(setf x (crts-prdc (sphere 1) (suspension (suspension (suspension (suspension (suspension (suspension (suspension (sphere 1))))))))))
(setf x (suspension (crts-prdc (sphere 1) (table (a) (b)))))
(setf x (bundle (k-z-1)))
(setf x (bundle (crts-prdc (sphere 1) (sphere 1)) (c 1)))
(setf x (bundle (sphere 2) (S3 1)))
(setf x (bundle (sphere 2) (S2 1) (S2 200000)))
(setf x (bundle (sphere 2) (S2 200000) (S2 1)))
(setf x (bundle (table (v) (t 0:v 0:v 0:v) (w t 1-0:v 1-0:v 1-0:v)) (t 3)))
(setf x (table))
(setf x (table (e e e)))
(setf x (table (v) (e v v) (e v v)))
(setf x (table (v) (e v)))
(setf x (table (v) (e v v) (t e e 0:e)))
(setf x (table (v) (e v v) (t e 1:v e)))
(setf x (table (v) (e v w) (w)))
(setf x (table (a) (b) (e a b) (t e e e)))
(names)
(homology (sphere 3) 17)
(betti (sphere 3) 18 20)
(boundary (sphere 2) 2 (1 S3))
(boundary (sphere 2) 2 (1 S2) (1 0-1:*))
(setf rp2 (table (v) (e v v) (t e 0:v e)))
(field 3)
(express rp2 2 (1 t))
(boundary (k-z-1) 1 (1 |2|3|))
(boundary (k-z-1) 1 (1 |100001|))
(boundary (k-z-1) 2 (1 |100000|1|))
(express (k-z-1) 1 (1 |60000|))
(express nowhere 17 (1 x))
(express rp2 17 (1 x))
(express rp2 2 (1 t) (1 x))
~error syntax
error syntax
error syntax
error syntax
error syntax
error syntax
error syntax
error not-built
error not-built
error not-built
error unknown-name x
error field 4
error term bad-sphere 0
error term bad-sphere 17
error term not-one-vertex 2
error term too-deep 9
error term bad-sphere 17
error term bad-sphere 0
error term too-deep 9
error term not-one-vertex 2
error term base-not-table
error term base-not-table
error cocycle unknown-cell 1
error cocycle repeated-cell 2
error over integer 200000
error cocycle not-closed 2 3
error table no-vertex
error table no-vertex
error table duplicate-cell 2
error table bad-dimension 1
error table bad-dimension 2
error table bad-dimension 2
error table unknown-cell 1 1
error table face-law 3 0 2
names
error degree 17
error degree 18
error simplex 1
error simplex 2
defined rp2
field 3
error not-a-cycle (2 e)
error simplex 1
error over integer 100001
error over integer 100001
error over terms 59999
error unknown-name nowhere
error degree 17
error simplex 2
~language: Grammar~(betti(sphere 2)0 2);no blank is needed beside a parenthesis
 ( betti ( sphere 2 ) 0 2 )
(betti (sphere 2) 0 2)x
(boundary (sphere 2) 2 (1 1 - 0:*))
~betti 1 0 1
betti 1 0 1
error syntax
error syntax
~";
