// What drawing writes for small inputs.
#![tactic(auto)]

#[cfg(test)]
mod tests {
    use drawing::draw;
    use std::process::Abort;
    use std::test::Fail;

    fn writes(rt: &(impl Abort + AllocGlobal), input: &[u8], text: &str) -> Result<(), Fail> {
        let written = draw(rt.alloc(), input)?;
        assert_eq!(rt; written.as_str(), text);
        Ok(())
    }

    #[test]
    fn triangle(rt: HostRuntime) -> Result<(), Fail> {
        writes(
            &rt,
            b"mvfs 0 0 0 0 0 0 0\nmev 512 0 1 256 0 0\nmev 1 1 2 256 256 0\nmef 0 3 2 1 1",
            "ok\nok\nok\nok\nc 3 3 2 2 1 0\nv 0 0 0 0\nv 1 256 0 0\nv 2 256 256 0\ne 0 0 1\ne 1 1 2\ne 2 0 2\nf 0 0 0\nf 1 0 1\nl 0 0 1 4 3\nl 1 1 0 2 5\n",
        )
    }

    // The largest and the smallest coordinate, and one more on either side.
    #[test]
    fn coordinates(rt: HostRuntime) -> Result<(), Fail> {
        writes(
            &rt,
            b"mvfs 0 0 0 0 8388607 -8388608 0\nmvfs 1 1 1 1 8388608 0 0\nmvfs 1 1 1 1 0 0 -8388609\n",
            "ok\nno 1 2\nno 1 3\nc 1 0 1 1 1 0\nv 0 8388607 -8388608 0\nf 0 0 0\nl 0 0 v 0\n",
        )
    }

    #[test]
    fn mef_between_equal_half_edges(rt: HostRuntime) -> Result<(), Fail> {
        writes(
            &rt,
            b"mvfs 0 0 0 0 0 0 0\nmev 512 0 1 256 0 0\nmef 0 0 1 1 1\n",
            "ok\nok\nno 4 3\nc 2 1 1 1 1 0\nv 0 0 0 0\nv 1 256 0 0\ne 0 0 1\nf 0 0 0\nl 0 0 0 1\n",
        )
    }

    // Out of range comes before unused, that before used, and that before the operator's condition.
    #[test]
    fn first_reason_of_two(rt: HostRuntime) -> Result<(), Fail> {
        writes(
            &rt,
            b"mvfs 0 0 0 0 0 0 0\nmev 512 0 1 256 0 0\nmev 9 192 1 0 0 0\nmev 9 0 1 0 0 0\nmev 512 0 2 0 0 0\nmev 512 1 2 0 0 0\nmef 0 0 0 1 1\n",
            "ok\nok\nno 1 3\nno 3 4\nno 2 5\nno 4 6\nno 2 7\nc 2 1 1 1 1 0\nv 0 0 0 0\nv 1 256 0 0\ne 0 0 1\nf 0 0 0\nl 0 0 0 1\n",
        )
    }

    // Spaces, a line without a word, a minus zero, a word that is no operator and arguments that are too few or no numbers.
    #[test]
    fn lines_and_words(rt: HostRuntime) -> Result<(), Fail> {
        writes(
            &rt,
            b"  mvfs 0 0 0 0 0 -0 0 \n\n \nmew 1\n7\nmev 512 0 1 256 0\nmev 512 0 1 256 0 1234567890\nmev 512 0 1\t256 0 0\nmef 0 1 1 1 1 1",
            "ok\nno 40 4\nno 40 5\nno 41 6\nno 41 7\nno 41 8\nno 41 9\nc 1 0 1 1 1 0\nv 0 0 0 0\nf 0 0 0\nl 0 0 v 0\n",
        )
    }

    // What kef, kev and kvfs leave of the triangle, which is nothing.
    #[test]
    fn triangle_taken_down(rt: HostRuntime) -> Result<(), Fail> {
        writes(
            &rt,
            b"mvfs 0 0 0 0 0 0 0\nmev 512 0 1 256 0 0\nmev 1 1 2 256 256 0\nmef 0 3 2 1 1\nkef 5\nkev 2\nkev 0\nkvfs 0",
            "ok\nok\nok\nok\nok\nok\nok\nok\nc 0 0 0 0 0 0\n",
        )
    }

    #[test]
    fn kemr_leaves_a_lone_vertex(rt: HostRuntime) -> Result<(), Fail> {
        writes(
            &rt,
            b"mvfs 0 0 0 0 0 0 0\nmev 512 0 1 256 0 0\nmev 1 1 2 256 256 0\nkemr 2 1",
            "ok\nok\nok\nok\nc 3 1 1 2 1 0\nv 0 0 0 0\nv 1 256 0 0\nv 2 256 256 0\ne 0 0 1\nf 0 0 0\nl 0 0 0 1\nl 1 0 v 2\n",
        )
    }

    #[test]
    fn mekr_undoes_kemr(rt: HostRuntime) -> Result<(), Fail> {
        writes(
            &rt,
            b"mvfs 0 0 0 0 0 0 0\nmev 512 0 1 256 0 0\nmev 1 1 2 256 256 0\nkemr 2 1\nmekr 1 513 1",
            "ok\nok\nok\nok\nok\nc 3 2 1 1 1 0\nv 0 0 0 0\nv 1 256 0 0\nv 2 256 256 0\ne 0 0 1\ne 1 1 2\nf 0 0 0\nl 0 0 0 2 3 1\n",
        )
    }

    #[test]
    fn kfmrh_counts_a_handle(rt: HostRuntime) -> Result<(), Fail> {
        writes(
            &rt,
            b"mvfs 0 0 0 0 0 0 0\nmev 512 0 1 256 0 0\nmev 1 1 2 256 256 0\nmef 0 3 2 1 1\nkfmrh 0 1",
            "ok\nok\nok\nok\nok\nc 3 3 1 2 1 1\nv 0 0 0 0\nv 1 256 0 0\nv 2 256 256 0\ne 0 0 1\ne 1 1 2\ne 2 0 2\nf 0 0 0\nl 0 0 1 4 3\nl 1 0 0 2 5\n",
        )
    }

    #[test]
    fn kfmrh_of_two_shells_counts_none(rt: HostRuntime) -> Result<(), Fail> {
        writes(
            &rt,
            b"mvfs 0 0 0 0 0 0 0\nmvfs 1 1 1 1 9 9 9\nkfmrh 0 1",
            "ok\nok\nok\nc 2 0 1 2 1 0\nv 0 0 0 0\nv 1 9 9 9\nf 0 0 0\nl 0 0 v 0\nl 1 0 v 1\n",
        )
    }
}
